// What the joiner returns where it is not refused.

// How many pieces were written, and how many of the segments went away.
#[derive(Clone, Copy)]
pub struct Joined {
    pub pieces: usize,
    pub gone: usize,
}
