// Bytes, words and numbers, put into a lent buffer one after another.
// What does not fit is left out and still counted, so that texts follow each other without a test for room, and a text put into an empty buffer is measured.
ghost use Rattle.std.specs.Prelude.{◌≡◌, [], ◌∷◌, length};
ghost use Rattle.text.specs.Text as Text;
ghost use Rattle.text.specs.Inner.TextPut.{Put};

use floats::bits_of;

// A lent buffer, and the index after all that was put into it, or the greatest index where that would be larger.
#[derive(Drop)]
pub struct TextBuffer<'a> {
    bytes: &'a mut [u8],
    position: usize,
}

impl<'a> TextBuffer<'a> {
    // Nothing is put into it yet.
    pub fn new(bytes: &'a mut [u8]) -> TextBuffer<'a>
        ensures same_reference { result.bytes.ghost_name ≡ bytes.entry.ghost_name }
        ensures contents { result.bytes.now ≡ bytes.old }
        ensures position { result.position ≡ 0 }
    {
        TextBuffer::new_at(bytes, 0)
    }

    // A text is put from this position on, which may lie beyond the buffer.
    pub fn new_at(bytes: &'a mut [u8], position: usize) -> TextBuffer<'a>
        ensures same_reference { result.bytes.ghost_name ≡ bytes.entry.ghost_name }
        ensures contents { result.bytes.now ≡ bytes.old }
        ensures position { result.position ≡ position }
    {
        TextBuffer { bytes, position }
    }

    pub fn position(&self) -> usize
        ensures { result ≡ self.now.position }
    {
        self.position
    }

    pub fn put_byte(&mut self, byte: u8)
        ensures { Put 1 self.old (byte ∷ []) self.new }
    {
        let at = self.position;
        if at < self.bytes.len() {
            self.bytes[at] = byte;
        }
        self.position = at.saturating_add(1);
    }

    pub fn put_word(&mut self, word: &[u8])
        ensures { Put (length word.now) self.old word.now self.new }
    {
        for byte in word {
            self.put_byte(*byte);
        }
    }

    // The last digits of a number in base 16. A recursion, since the first digit is put first, and no array then holds the digits in between.
    fn put_hexadecimal(&mut self, digits: usize, number: u64)
        ensures { Put digits self.old (Text.hexadecimal digits number) self.new }
    {
        if digits > 0 {
            self.put_hexadecimal(digits - 1, number / 16);
            self.put_byte(glyph(number % 16));
        }
    }

    // The decimal digits without leading zeros, none for 0. A recursion for the same reason.
    fn put_leading(&mut self, number: u64)
        ensures { Put (length (Text.leading number number)) self.old (Text.leading number number) self.new }
    {
        if number > 0 {
            self.put_leading(number / 10);
            self.put_byte(glyph(number % 10));
        }
    }

    // A number below 2^64 has at most 20 digits.
    pub fn put_decimal(&mut self, number: u64)
        ensures { Put 20 self.old (Text.decimal number) self.new }
    {
        if number == 0 {
            self.put_byte(b'0');
        } else {
            self.put_leading(number);
        }
    }

    pub fn put_float(&mut self, x: f64)
        ensures { Put 16 self.old (Text.float_text x) self.new }
    {
        self.put_hexadecimal(16, bits_of(x));
    }
}

#[tactic(auto, unfolding(crate::specs::Text::glyph))]
pub fn glyph(digit: u64) -> u8
    ensures { result ≡ Text.glyph digit }
{
    match digit {
        0..=9 => b'0' + digit as u8,
        10..=15 => b'a' - 10 + digit as u8,
        _ => b'?',
    }
}
