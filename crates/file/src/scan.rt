// The faults of a file, in byte order (SCOPE 10.2): where it has none, its counts and settings.
ghost use Rattle.std.specs.Prelude.{◌≡◌, ◌+◌, ◌*◌, ◌≤◌, length, take, drop, IfOk};
ghost use Rattle.std.specs.Float.{binary64};
ghost use Rattle.std.specs.Float.Ieee.{of_bits};
ghost use Rattle.file.specs.Reading.{big_endian, number, counted, segment, read};
ghost use Rattle.file.specs.Inner.Places.{count_of};
ghost use Rattle.file.specs.Columns.{reading_of};

use crate::bytes::Field;
use crate::entries::Entries;
use crate::reading::Header;
use drawing::Refusal;

// How many entries the list has whose count is at `at`, none of them missing, its entries read as plain numbers of `width` bytes. Missing bytes are a malformed file, but a count above the limit comes first.
fn count_at(bytes: &[u8], at: usize, limit: usize, width: usize) -> Result<usize, Refusal>
    requires { (at ≤ length bytes.now) × (limit ≤ 240) × (width ≤ 36) }
    ensures counted_entries { result ≡ count_of (counted limit (number width) (drop at bytes.now)) }
    ensures room { IfOk result (λ n. (n ≤ limit) × (at + 4 + width * n ≤ length bytes.now)) }
{
    let left = bytes.len() - at;
    if left < 4 {
        return Err(Refusal::MalformedFile);
    }
    let n = u32::read_at(bytes, at) as usize;
    if limit < n {
        return Err(Refusal::TooManyEntries);
    }
    if left - 4 < width * n {
        return Err(Refusal::MalformedFile);
    }
    Ok(n)
}

// The segments, which follow the version byte. The orientation byte is byte 4 of an entry.
fn count_segments(bytes: &[u8]) -> Result<usize, Refusal>
    requires { 1 ≤ length bytes.now }
    ensures counted_entries { result ≡ count_of (counted 120 segment (drop 1 bytes.now)) }
    ensures room { IfOk result (λ n. (n ≤ 120) × (5 + 29 * n ≤ length bytes.now)) }
{
    let count = count_at(bytes, 1, 120, 29)?;
    let segments = Entries {
        bytes,
        at: 5,
        width: 29,
        count,
    };
    if segments.above_one(4) {
        return Err(Refusal::MalformedFile);
    }
    Ok(count)
}

// The counts, and the settings at `at`.
fn header_at(bytes: &[u8], at: usize, segments: usize, nodes: usize, exemptions: usize) -> Header
    requires { at + 40 ≤ length bytes.now }
    ensures { result ≡ record { segments = segments; nodes = nodes; exemptions = exemptions; threshold = of_bits binary64 (big_endian 0 (take 8 (drop at bytes.now))); cutoff = of_bits binary64 (big_endian 0 (take 8 (drop (at + 8) bytes.now))); clearance = big_endian 0 (take 8 (drop (at + 16) bytes.now)); separation = big_endian 0 (take 8 (drop (at + 24) bytes.now)); congestion = big_endian 0 (take 8 (drop (at + 32) bytes.now)) } }
{
    Header {
        segments,
        nodes,
        exemptions,
        threshold: f64::read_at(bytes, at),
        cutoff: f64::read_at(bytes, at + 8),
        clearance: u64::read_at(bytes, at + 16) as usize,
        separation: u64::read_at(bytes, at + 24) as usize,
        congestion: u64::read_at(bytes, at + 32) as usize,
    }
}

// The parts in sequence. Where the length is not that of the parts, bytes are missing or left over.
pub(crate) fn scan(bytes: &[u8]) -> Result<Header, Refusal>
    ensures value { result ≡ reading_of (read bytes.now) }
    ensures room { IfOk result (λ h. (h.segments ≤ 120) × (h.nodes ≤ 120) × (h.exemptions ≤ 240) × (53 + 29 * h.segments + 36 * h.nodes + 8 * h.exemptions ≡ length bytes.now)) }
{
    let [1, ..] = bytes else {
        return Err(Refusal::MalformedFile);
    };
    let segments = count_segments(bytes)?;
    let nodes_at = 5 + 29 * segments;
    let nodes = count_at(bytes, nodes_at, 120, 36)?;
    let exemptions_at = nodes_at + 4 + 36 * nodes;
    let exemptions = count_at(bytes, exemptions_at, 240, 8)?;
    let at = exemptions_at + 4 + 8 * exemptions;
    if bytes.len() != at + 40 {
        return Err(Refusal::MalformedFile);
    }
    Ok(header_at(bytes, at, segments, nodes, exemptions))
}
