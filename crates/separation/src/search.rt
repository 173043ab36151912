// What the tree of the active nets answers to a search.

// The index of the line that was found, if there is one, and the remaining visits. A search whose allowance is spent answers refusal 7 instead (SCOPE 15.6).
#[derive(Clone, Copy)]
pub struct Search {
    pub line: Option<usize>,
    pub remaining: usize,
}
