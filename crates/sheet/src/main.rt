// The sheet of the drawing file on standard input, written to standard output (SCOPE 11.1). The longest file that is not refused for bytes left over has 9,773 bytes, so the first 9,774 bytes decide the sheet: `first_bytes` in the proofs of crate `file`.
#![tactic(auto)]

use input::read_full;
use std::io::{self, Write};

fn main(rt: HostRuntime) -> io::Result<()> {
    let mut bytes = [0u8; 9774];
    let n = read_full(&mut rt.stdin(), &mut bytes)?;
    let mut text = [0u8; 256];
    let length = printing::sheet(&bytes[..n], &mut text);
    rt.stdout().write_all(&text[..length])
}
