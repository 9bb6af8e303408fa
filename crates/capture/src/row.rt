// Lists in stored form: a row of places, the first of them in use.
ghost use Rattle.std.specs.Prelude.{◌≡◌, ◌≤◌, [], ◌∷◌, ◌++◌, length, take, nat_lt, Err, is_ok, OnErr, ⊤};

use questions::Refusal;
use std::alloc::AllocError;

// A list of at most N values, as it lies in an entry of a table.
//
// No `ArrayVec`: that is not `Copy`, and the entries of a table are copied.
pub struct Row<X, const N: usize> {
    // the values in use stand first; what stands after them is left from before
    items: [X; N],
    // how many are in use
    len: usize,
    ghost few: { len ≤ N },
}

// By hand: `Clone` cannot be derived for a generic struct with a ghost field.
impl<X: Copy, const N: usize> Clone for Row<X, N> {
    ghost is_clone = { λ x y. y ≡ x };

    ghost is_infallible = { λ _. ⊤ };

    fn clone(&self) -> Result<Row<X, N>, AllocError> {
        Ok(*self)
    }
}

impl<X: Copy, const N: usize> Copy for Row<X, N> {}

impl<X: Copy, const N: usize> Row<X, N> {
    ghost use Rattle.capture.specs.Rows.{Stores, has_places, row};

    // A row with nothing in use.
    pub fn new(filler: X) -> Row<X, N>
        ensures { row result ≡ [] }
    {
        Row {
            items: [filler; N],
            len: 0,
        }
    }

    // The values in use.
    pub fn view(&self) -> &[X]
        ensures { result.now ≡ row self.now }
    {
        &self.items[..self.len]
    }

    // Takes all values out.
    pub fn clear(&mut self)
        ensures { row self.new ≡ [] }
    {
        self.len = 0;
    }

    // Puts a value last, where there is a place for it.
    pub fn push(&mut self, item: X) -> Result<(), Refusal>
        ensures room { is_ok result ≡ nat_lt (length (row self.old)) N }
        ensures after { row self.new ≡ take N (row self.old ++ item ∷ []) }
        ensures refused { OnErr result ((result ≡ Err Refusal.LongMessage) × (self.new ≡ self.old)) }
    {
        if self.len == N {
            return Err(Refusal::LongMessage);
        }
        self.items[self.len] = item;
        self.len += 1;
        Ok(())
    }

    // Puts a list that is not too long in place of the values.
    pub(crate) fn fill(&mut self, from: &[X])
        requires { length from.now ≤ N }
        ensures { row self.new ≡ from.now }
    {
        self.items[..from.len()].copy_from_slice(from);
        self.len = from.len();
    }

    // Puts a list in place of the values, where it is not too long.
    pub fn store(&mut self, from: &[X]) -> Result<(), Refusal>
        ensures { Stores row (has_places N) result self.old self.new from.now }
    {
        if N < from.len() {
            return Err(Refusal::LongMessage);
        }
        self.fill(from);
        Ok(())
    }
}
