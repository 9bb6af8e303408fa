// Lines that are not well formed.

// The first line of a file that is not well formed.
#[derive(Clone, Copy, Debug, PartialEq, Eq)]
pub struct Malformed {
    // its number; the first line of a file has number 1
    pub line: usize,
}
