// Plain unsigned numbers, as rounds and as data.
ghost use Rattle.std.specs.Prelude.{◌≡◌, min, max, nat_eq, nat_le};
ghost use Rattle.std.proofs.Common.{rules};

use crate::{Lattice, PartialOrder, Same, Timestamp};

impl PartialOrder for u64 {
    type Value = u64;

    ghost value = { λ n. n };

    ghost below = { nat_le };

    ghost order = { Prim.search rules };

    fn less_equal(&self, other: &u64) -> bool {
        *self <= *other
    }
}

impl Lattice for u64 {
    ghost joined = { max };

    ghost met = { min };

    ghost joins = { Prim.search rules };

    ghost meets = { Prim.search rules };

    // Kept beside `meet`: the one word that differs is all that each says.
    fn join(&self, other: &u64) -> u64 {
        (*self).max(*other)
    }

    fn meet(&self, other: &u64) -> u64 {
        (*self).min(*other)
    }
}

impl Timestamp for u64 {
    ghost start = { 0 };

    ghost least = { Prim.search rules };

    fn minimum() -> u64 {
        0
    }
}

impl Same for u64 {
    type Value = u64;

    ghost value = { λ n. n };

    ghost alike = { nat_eq };

    ghost exact = { Prim.search rules };

    fn same(&self, other: &u64) -> bool {
        *self == *other
    }
}
