// An ordered set of indices, stored as bits in a slice of 64-bit words that the caller lends: index p is in the set where bit p % 64 of word p / 64 is set.
// Indices beyond the words are never members: inserting or removing one leaves the words as they are.
#![tactic(auto)]

ghost use Rattle.std.specs.Prelude.{◌≡◌, ◌+◌, ◌/◌, ◌^◌, ◌≤◌, ◌<◌, min};
ghost use Rattle.bitset.specs.Inner.Members.{member, inserted, removed, rest_below, last_with};

// Whether an index is in the set.
pub fn contains(words: &[u64], place: usize) -> bool
    ensures { result ≡ member words.now place }
{
    let at = place / 64;
    if words.len() <= at {
        return false;
    }
    (words[at] >> (place % 64)) % 2 == 1
}

// Puts an index into the set.
pub fn insert(words: &mut [u64], place: usize)
    ensures { words.new ≡ inserted words.old place }
{
    let at = place / 64;
    if words.len() <= at {
        return;
    }
    let bit = place % 64;
    let word = words[at];
    if (word >> bit) % 2 == 1 {
        return;
    }
    let more = word + (1u64 << bit);
    words[at] = more;
}

// Takes an index out of the set.
pub fn remove(words: &mut [u64], place: usize)
    ensures { words.new ≡ removed words.old place }
{
    let at = place / 64;
    if words.len() <= at {
        return;
    }
    let bit = place % 64;
    let word = words[at];
    if (word >> bit) % 2 == 0 {
        return;
    }
    let less = word - (1u64 << bit);
    words[at] = less;
}

// The greatest bit of a word that is not 0.
fn top_bit(word: u64) -> usize
    requires { 0 < word }
    ensures { (2 ^ result ≤ word) × (word < 2 ^ (result + 1)) }
{
    let last = 63 - u64::leading_zeros(word);
    last as usize
}

// The word of `to`, or the number of words where `to` is beyond them.
fn word_of(count: usize, to: usize) -> usize
    ensures { result ≡ min (to / 64) «count» }
{
    count.min(to / 64)
}

// The rest below `to`: the word of `to` without the bits from `to` on; 0 beyond the words.
pub fn rest_below(words: &[u64], to: usize) -> u64
    ensures { result ≡ rest_below words.now to }
{
    let at = to / 64;
    if words.len() <= at {
        return 0;
    }
    words[at] % (1u64 << (to % 64))
}

// The greatest member from `from` on and below `to`, given the rest below `to`: `rest` is used in place of the word of `to`. The rest is searched first and then the words below, so it takes constant time and a step for each empty word that it passes.
// A caller that goes down through a range passes the rest that it was given: while a word has members left, no word is read, and the next search need not wait for a read.
pub fn last_below(words: &[u64], from: usize, to: usize, rest: u64) -> Option<(usize, u64)>
    ensures { result ≡ last_with words.now from to rest }
{
    let first = from / 64;
    let mut at = word_of(words.len(), to);
    let mut bits = rest;
    // No range counts these words: where the rest has a member none is read, as in most calls.
    while bits == 0 {
        if at <= first {
            return None;
        }
        at -= 1;
        bits = words[at];
    }
    let top = top_bit(bits);
    let place = at * 64 + top;
    if place < from {
        return None;
    }
    let below = bits - (1u64 << top);
    Some((place, below))
}
