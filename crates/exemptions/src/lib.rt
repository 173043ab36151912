// Exemptions (SCOPE 2.3) for fast search. Each is packed into one word, the net in the upper half; the words are in ascending order in a slice that the caller lends, so those of one net are consecutive and are found by halving.
#![tactic(auto)]

ghost use Rattle.std.specs.Prelude.{◌≡◌, List, ℕ, ◌≤◌, length};
ghost use Rattle.drawing.specs.Entries.{Exemption, lent_exemptions};
ghost use Rattle.drawing.specs.Inner.Lengths.{ExemptionsAgree};
ghost use Rattle.clearance.specs.Figures.{exempt};
ghost use Rattle.exemptions.specs.Inner.Exempting.{word, word_at, node_of, Ascending, Rising, Gathered, LowerBound, Own, Listed};

use drawing::Exemptions;
use sorting::sort_indices;

// 2 to the power 32: the upper half of a word is the net, the lower the node.
pub const HALF: u64 = 4294967296;

// The indices of one net's exemptions: from `from` on, and before `to`. A type of its own, since std's `Range` is not `Copy`.
#[derive(Clone, Copy)]
pub struct Range {
    pub from: usize,
    pub to: usize,
}

fn pack(net: u32, node: u32) -> u64
    ensures { result ≡ word net node }
{
    net as u64 * HALF + node as u64
}

// Packs the exemptions into the first words and puts them in ascending order. That the columns agree and that there are enough words is known from a drawing's checks; otherwise nothing is written.
pub fn gather(words: &mut [u64], exemptions: &Exemptions<'_>)
    ensures { ExemptionsAgree (lent_exemptions exemptions.now) → length exemptions.now.net.now ≤ length words.old → Gathered (lent_exemptions exemptions.now) words.old words.new }
{
    let Exemptions { net, node } = *exemptions;
    let k = net.len();
    if node.len() != k {
        return;
    }
    if words.len() < k {
        return;
    }
    for i in 0..k {
        words[i] = pack(net[i], node[i]);
    }
    sort_indices(words, k, k, 0);
}

// The first index from a on, and before b, whose word is at least v; b where there is none. The caller put the words in ascending order. Where they do not ascend, some index from a to b is returned; where a to b is no range of the words, a is.
pub fn first_at_least(words: &[u64], a: usize, b: usize, v: u64) -> usize
    ensures { a ≤ b → b ≤ length words.now → Ascending (word_at words.now) a b → LowerBound (word_at words.now) a b v result }
{
    let Some(part) = words.get(a..b) else {
        return a;
    };
    a + part.partition_point(|word| *word < v)
}

// The same for the nodes of the words. It is written out, since `partition_point` compares: `below` is 1 where the node in the middle is below id, and 0 where it is not: a comparison here would become a branch, mispredicted half of the time.
fn first_node(words: &[u64], a: usize, b: usize, id: u32) -> usize
    requires { (a ≤ b) × (b ≤ length words.now) }
    ensures { Ascending (node_of words.now) a b → LowerBound (node_of words.now) a b id result }
{
    let limit = id as u64 + (HALF - 1);
    // the index sought is one of the n from `at` on, or the one after them
    let mut at = a;
    let mut n = b - a;
    while 0 < n {
        let rest = n / 2;
        let half = n - rest;
        let below = (limit - words[at + half - 1] % HALF) / HALF;
        at += half * below as usize;
        n = rest;
    }
    at
}

// The indices of that net's exemptions among the first k words, which ascend once they are gathered. The words may go on after the k exemptions, so k stays beside the slice.
pub fn net_range(words: &[u64], k: usize, net: u32) -> Range
    ensures { Rising words.now k → Own words.now k net result }
{
    let from = first_at_least(words, 0, k, net as u64 * HALF);
    // the words of the last net extend to the end
    if net == u32::MAX {
        return Range { from, to: k };
    }
    let to = first_at_least(words, from, k, (net as u64 + 1) * HALF);
    Range { from, to }
}

// Whether a node of that id is exempt for the net whose exemptions are in the range that `net_range` returns for gathered words. Where the range is empty or extends beyond the words, no node is.
pub fn is_exempt(words: &[u64], range: Range, id: u32) -> bool
    ensures { (ex : List Exemption) (net : ℕ) → Listed words.now ex net range → result ≡ exempt ex net id }
{
    let from = range.from;
    let to = range.to;
    if to <= from {
        return false;
    }
    if words.len() < to {
        return false;
    }
    let at = first_node(words, from, to, id);
    at < to && words[at] % HALF == id as u64
}
