// Marks of the ids that are exempt for a net, one bit for each id of a leaf. The segments are walked in the order of their nets, so the marks are made once for each net, and a visit reads one bit instead of searching the net's exemptions.
// The leaves' ids are stored in ascending order. The group of a leaf is the first index of its id there: leaves of one id have one group, whose bit is their mark, so an exemption takes one step however many leaves share its id.
ghost use Rattle.std.specs.Prelude.{◌≡◌, List, ℕ, ◌≤◌, ◌<◌, length, get_or, take, Some, None};
ghost use Rattle.bitset.specs.Inner.Members.{member};
ghost use Rattle.drawing.specs.Entries.{Exemption};
ghost use Rattle.exemptions.specs.Inner.Exempting.{Rising, Holds};
ghost use Rattle.clearance_call.specs.Inner.Marks.{TreeAtEnd, IdsSorted, LeavesGrouped, Grouped, Added, MarksOf, MarksIfAny};

use bitset::{contains, insert};
use drawing::clear;
use exemptions::{HALF, first_at_least, net_range};
use sorting::sort_indices;

// Words of marks, for 4,096 leaves.
const MARK_WORDS: usize = 64;

// Puts the ids of the m leaves in ascending order, in the first words of s. The tree follows 11 words for each leaf.
fn sort_ids(s: &mut [u64], m: usize)
    requires { TreeAtEnd s.old m }
    ensures { IdsSorted s.old s.new m }
{
    // By an index: the slice is written while it is read.
    for j in 0..m {
        s[j] = s[11 * m + 9 * j + 8];
    }
    sort_indices(s, m, m, 0);
}

// Puts the ids in order and, after them, the groups of the leaves. Without exemptions nothing is marked, and neither is needed.
pub(crate) fn group_leaves(s: &mut [u64], m: usize, exemptions: usize)
    requires { TreeAtEnd s.old m }
    ensures { LeavesGrouped s.old s.new m exemptions }
{
    if exemptions == 0 {
        return;
    }
    sort_ids(s, m);
    for j in 0..m {
        let group = first_at_least(s, 0, m, s[11 * m + 9 * j + 8]);
        s[m + j] = group as u64;
    }
}

// Marks the leaves of that id, if there are any.
fn mark_id(marks: &mut [u64], ids: &[u64], id: u32)
    requires { Rising ids.now (length ids.now) }
    ensures { Added ids.now (length ids.now) id marks.old marks.new }
{
    let group = first_at_least(ids, 0, ids.len(), id as u64);
    if ids.len() <= group {
        return;
    }
    if ids[group] != id as u64 {
        return;
    }
    insert(marks, group);
}

// Makes the marks of a net, and returns how many words of them count. Where the net has no exemptions none do, so no word is cleared, and the walk reads none. The words of `packed` are the exemptions, those of `ids` the ids of the leaves.
fn mark_net(marks: &mut [u64], net: u32, packed: &[u64], ids: &[u64]) -> usize
    requires { (length marks.old ≡ 64) × Rising packed.now (length packed.now) × (0 < length packed.now → Rising ids.now (length ids.now)) }
    ensures { (result ≤ 64) × ((ex : List Exemption) (groups w : List ℕ) → Holds packed.now ex → length ex ≡ length packed.now → (0 < length packed.now → Grouped ids.now groups w (length ids.now)) → MarksOf (take result marks.new) groups w ex net) }
{
    let range = net_range(packed, packed.len(), net);
    let from = range.from;
    let to = range.to;
    if from == to {
        return 0;
    }
    clear(marks);
    for i in from..to {
        mark_id(marks, ids, (packed[i] % HALF) as u32);
    }
    MARK_WORDS
}

// The marks of the net that was walked last, if there was one: the first `used` words. A count and no flag: it ends the slice that a visit reads, so that a net without exemptions has an empty one.
#[derive(Drop)]
pub(crate) struct Marks {
    words: [u64; MARK_WORDS],
    used: usize,
    net: Option<u32>,
}

impl Marks {
    // No net yet.
    pub(crate) fn none() -> Marks
        ensures { (length result.words ≡ 64) × (result.used ≡ 0) × (result.net ≡ None) }
    {
        Marks {
            words: [0; MARK_WORDS],
            used: 0,
            net: None,
        }
    }

    // The marks are kept for the same net, and made anew for another one.
    pub(crate) fn renew(&mut self, net: u32, packed: &[u64], ids: &[u64])
        requires marks_and_order { (length self.old.words ≡ 64) × Rising packed.now (length packed.now) × (0 < length packed.now → Rising ids.now (length ids.now)) }
        requires used_at_most { self.old.used ≤ 64 }
        ensures { (length self.new.words ≡ 64) × (self.new.used ≤ 64) × (self.new.net ≡ Some net) × ((ex : List Exemption) (groups w : List ℕ) → Holds packed.now ex → length ex ≡ length packed.now → (0 < length packed.now → Grouped ids.now groups w (length ids.now)) → MarksIfAny (take self.old.used self.old.words) groups w ex self.old.net → MarksOf (take self.new.used self.new.words) groups w ex net) }
    {
        if self.net == Some(net) {
            return;
        }
        self.used = mark_net(&mut self.words, net, packed, ids);
        self.net = Some(net);
    }

    // The words of the marks.
    pub(crate) fn words(&self) -> &[u64]
        requires { self.now.used ≤ length self.now.words }
        ensures { result.now ≡ take self.now.used self.now.words }
    {
        &self.words[0..self.used]
    }
}

// Whether leaf i is marked. Where the net has no exemptions there are no marks, and the leaf's group is not read.
pub(crate) fn is_marked(marks: &[u64], groups: &[u64], i: usize) -> bool
    requires { i < length groups.now }
    ensures { result ≡ member marks.now (get_or groups.now i 0) }
{
    if marks.len() == 0 {
        return false;
    }
    contains(marks, groups[i] as usize)
}
