// Replays a stored sample from standard input: drawing files, each with the sheet that the Rust gives for it. Writes how many of these sheets equal the library's, and how many do not.
//
// A record is the length of a drawing file, the file, the length of its sheet and the sheet; a length has 32 bits, big-endian. Where a part is incomplete or does not fit its buffer, nothing after it can be read as records, so the record counts as differing and the run ends.
#![tactic(auto)]

ghost use Rattle.std.specs.Prelude.{◌≡◌, ◌≤◌, ◌↔◌, true, length, IfOk, IfSome};
ghost use Rattle.printing.specs.Sheet as Sheet;

use input::read_full;
use std::io::{self, Read};

// Why a part was not read: the input failed, or the part is incomplete or does not fit its buffer.
#[derive(Drop)]
enum Fault {
    Failed(io::Error),
    Broken,
}

impl From<io::Error> for Fault {
    fn from(error: io::Error) -> Fault {
        Fault::Failed(error)
    }
}

#[derive(Clone, Copy)]
struct Tally {
    agree: u64,
    differ: u64,
}

// Reads a part to the front of its buffer, and returns its length, or None at the end of the input.
fn read_part<R: Read>(input: &mut R, buffer: &mut [u8]) -> Result<Option<usize>, Fault>
    ensures { IfOk result (λ part. IfSome part (λ n. n ≤ length buffer.new)) }
{
    let mut bytes = [0u8; 4];
    let n = read_full(input, &mut bytes)?;
    if n == 0 {
        return Ok(None);
    }
    if n < 4 {
        return Err(Fault::Broken);
    }
    let length = u32::from_be_bytes(bytes) as usize;
    if buffer.len() < length {
        return Err(Fault::Broken);
    }
    let n = read_full(input, &mut buffer[..length])?;
    if n < length {
        return Err(Fault::Broken);
    }
    Ok(Some(length))
}

// Whether a file's sheet is the expected one.
fn agrees(bytes: &[u8], expected: &[u8]) -> bool
    ensures { result ≡ true ↔ Sheet.sheet bytes.now ≡ expected.now }
{
    let mut text = [0u8; 256];
    let length = printing::sheet(bytes, &mut text);
    &text[..length] == expected
}

// Whether the next record's sheet agrees, or None at the end of the input. The longest file that a sample holds has some 9,800 bytes.
fn replay_record<R: Read>(input: &mut R) -> Result<Option<bool>, Fault> {
    let mut bytes = [0u8; 16384];
    let Some(n) = read_part(input, &mut bytes)? else {
        return Ok(None);
    };
    let mut expected = [0u8; 256];
    let Some(m) = read_part(input, &mut expected)? else {
        return Err(Fault::Broken);
    };
    Ok(Some(agrees(&bytes[..n], &expected[..m])))
}

fn replay<R: Read>(input: &mut R) -> io::Result<Tally> {
    let mut tally = Tally {
        agree: 0,
        differ: 0,
    };
    // A proved loop has to end, and nothing says that the input does: no run uses up so many turns.
    for _turn in 0..u64::MAX {
        match replay_record(input) {
            Ok(Some(true)) => tally.agree += 1,
            Ok(Some(false)) => tally.differ += 1,
            Ok(None) => break,
            Err(Fault::Broken) => {
                tally.differ += 1;
                break;
            }
            Err(Fault::Failed(error)) => return Err(error),
        }
    }
    Ok(tally)
}

fn main(rt: HostRuntime) -> io::Result<()> {
    let Tally { agree, differ } = replay(&mut rt.stdin())?;
    println!(rt; "{agree} agree, {differ} differ")
}
