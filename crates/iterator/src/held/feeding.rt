// A held reader at work on a message.
use super::Held;
use capture::StoredProgress;

// The reader's numbers, its tables and those that it answers in.  That these are at least their sizes
// stands in the contracts: by value, a struct with a ghost field is not covered where a call may refuse.
#[derive(Drop)]
pub(super) struct Feeding<'a, D, T, R> {
    pub(super) reader: &'a mut Held,
    pub(super) frontier: &'a mut [T],
    pub(super) reported: &'a mut [T],
    pub(super) counts: &'a mut [(T, i64)],
    pub(super) held: &'a mut [(D, T, R)],
    pub(super) waiting: &'a mut [StoredProgress<T>],
    pub(super) published: &'a mut [(D, T, R)],
    pub(super) told: &'a mut [T],
}
