// The entries of a list, and the columns of their fields.
ghost use Rattle.std.specs.Prelude.{◌≡◌, [], ◌+◌, ◌*◌, ◌<◌, ◌≤◌, ◌++◌, map, ltb, length, take, drop, slice_index_or};

use crate::bytes::Field;

// `count` entries of `width` bytes each, the first one at `at`.
#[derive(Clone, Copy)]
pub(crate) struct Entries<'a> {
    pub(crate) bytes: &'a [u8],
    pub(crate) at: usize,
    pub(crate) width: usize,
    pub(crate) count: usize,
    ghost inside: { at + width * count ≤ length bytes.now },
}

impl Entries<'_> {
    ghost use Rattle.laws.specs.Lists.{some_of};
    ghost use Rattle.file.specs.Reading.{big_endian};
    ghost use Rattle.file.specs.Inner.Places.{entry_starts};

    // The field at an offset of the entry at an index.
    fn field<T: Field>(&self, index: usize, offset: usize) -> T
        requires { (index < self.now.count) × (offset + T.width ≤ self.now.width) }
        ensures { result ≡ T.value (take T.width (drop offset (slice_index_or (entry_starts self.now) index []))) }
    {
        T::read_at(self.bytes, self.at + self.width * index + offset)
    }

    // A column of the field at an offset: one value of each entry, the entries in sequence.
    pub(crate) fn fill<T: Field>(&self, offset: usize, column: &mut [T])
        requires { (self.now.count ≤ length column.old) × (offset + T.width ≤ self.now.width) }
        ensures { column.new ≡ map (λ entry. T.value (take T.width (drop offset entry))) (entry_starts self.now) ++ drop self.now.count column.old }
    {
        for i in 0..self.count {
            column[i] = self.field(i, offset);
        }
    }

    // Whether the byte at an offset is above 1 in some entry.
    pub(crate) fn above_one(&self, offset: usize) -> bool
        requires { offset + 1 ≤ self.now.width }
        ensures { result ≡ some_of (λ entry. ltb 1 (big_endian 0 (take 1 (drop offset entry)))) (entry_starts self.now) }
    {
        (0..self.count).any(|i| self.field::<u8>(i, offset) > 1)
    }
}
