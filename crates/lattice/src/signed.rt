// Plain signed numbers, as amounts.
ghost use Rattle.std.specs.Prelude.{◌≡◌};
ghost use Rattle.lattice.specs.Sameness.{eqb_signed};
ghost use Rattle.std.proofs.Common.{rules};

use crate::Same;

// Kept beside that for `u64`: one for every `Eq` misses `exact`, since an `Eq` may ignore a field.
impl Same for i64 {
    type Value = i64;

    ghost value = { λ n. n };

    ghost alike = { eqb_signed };

    ghost exact = { Prim.search rules };

    fn same(&self, other: &i64) -> bool {
        *self == *other
    }
}
