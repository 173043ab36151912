// The lines of the rows in order: each row's line gets a number, and the different keys go into a column of their own.
ghost use Rattle.std.specs.Prelude.{◌≡◌, ◌*◌, ◌≤◌, length};
ghost use Rattle.separation_call.specs.Inner.Numbered.{line_of, LinesNumbered};

// The number of the line of a key, where m lines have begun, the last of them with the key `last`. The last key is no Option: m is counted anyway, and says whether there is one.
fn line_of(m: usize, last: u64, key: u64) -> usize
    ensures { result ≡ line_of m last key }
{
    if m == 0 {
        return 0;
    }
    if key == last { m - 1 } else { m }
}

// Column 4 holds the line keys of n rows in order. Each word of it becomes the number of its line, and the line's key is stored at that index in column 6. The answer is the number of lines.
// A key that is not new is written once more over itself, so that the loop has no branch for it.
pub(crate) fn number_lines(s: &mut [u64], n: usize) -> usize
    requires { 7 * n ≤ length s.old }
    ensures { LinesNumbered n s.old s.new result }
{
    let mut m = 0;
    let mut last = 0;
    for j in 0..n {
        let at = 4 * n + j;
        let key = s[at];
        let line = line_of(m, last, key);
        let to = 6 * n + line;
        s[to] = key;
        s[at] = line as u64;
        m = line + 1;
        last = key;
    }
    m
}
