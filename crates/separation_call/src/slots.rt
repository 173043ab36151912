// The slots of the segments: those of one line and one net share a slot, all others have slots of their own.
ghost use Rattle.std.specs.Prelude.{◌≡◌, ◌*◌, ◌≤◌, length};
ghost use Rattle.rows.specs.Inner.Tables.{column};
ghost use Rattle.separation_call.specs.Inner.Numbered.{Slottable, WordsFilled, WordsInOrder, slot_of, SlotsPut, SlotsAssigned};

use sorting::sort_indices;

// A word is made of a line, a net and a segment's index. The index has the lowest 12 bits, so the net is multiplied by 2^12.
const NET: u64 = 1 << 12;

// The net has the next 32 bits, so the line is multiplied by 2^44.
const LINE: u64 = 1 << 44;

// Column 8 takes a word for each segment.
fn fill_words(s: &mut [u64], n: usize)
    requires { Slottable n s.old }
    ensures { WordsFilled n s.old s.new }
{
    for j in 0..n {
        let line = s[4 * n + j];
        let net = s[5 * n + j];
        let word = line * LINE + net * NET + j as u64;
        let at = 8 * n + j;
        s[at] = word;
    }
}

// The slot of the k-th word: that of the word before it where line and net are the same, else k. The first word has slot 0 either way.
fn slot_of(k: usize, slot: usize, last: u64, group: u64) -> usize
    ensures { result ≡ slot_of k slot last group }
{
    if group == last { slot } else { k }
}

// Words of the same line and net are adjacent in column 8. The index of the first of them is their slot. It is stored in column 7, at the index that each of them has in its low 12 bits.
fn put_slots(s: &mut [u64], n: usize)
    requires { (9 * n ≤ length s.old) × WordsInOrder n (column n 8 s.old) }
    ensures { SlotsPut n s.old s.new }
{
    let mut slot = 0;
    let mut last = 0;
    for k in 0..n {
        let word = s[8 * n + k];
        let group = word / NET;
        let place = (word % NET) as usize;
        slot = slot_of(k, slot, last, group);
        let at = 7 * n + place;
        s[at] = slot as u64;
        last = group;
    }
}

// Column 4 holds the line numbers of n segments and column 5 their nets; column 7 gets their slots.
pub(crate) fn assign_slots(s: &mut [u64], n: usize)
    requires { Slottable n s.old }
    ensures { SlotsAssigned n s.old s.new }
{
    fill_words(s, n);
    sort_indices(&mut s[8 * n..], n, n, 0);
    put_slots(s, n);
}
