// The sheet of a drawing file (SCOPE 11).
ghost use Rattle.std.specs.Prelude.{◌≡◌, ◌++◌, length, drop};
ghost use Rattle.printing.specs.Sheet as Sheet;

// Writes the text to the first bytes of the buffer, leaves the other bytes as they were, and returns the text's length.
#[unsafe(no_mangle)]
pub extern "C" fn readability_sheet(bytes: &[u8], text: &mut [u8; 256]) -> usize
    ensures value { result ≡ length (Sheet.sheet bytes.now) }
    ensures text_after { text.new ≡ Sheet.sheet bytes.now ++ drop (length (Sheet.sheet bytes.now)) text.old }
{
    exports::readability_sheet(bytes, text)
}
