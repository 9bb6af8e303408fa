// Pairs of times, ordered when both parts are.
ghost use Rattle.std.specs.Prelude.{◌≡◌};
ghost use Rattle.lattice.specs.Orders.{both, parts};
ghost use Rattle.std.proofs.Common.{rules};

use crate::{Lattice, PartialOrder, Timestamp};

#[derive(Clone, Copy, Debug)]
pub struct Product<X, Y> {
    pub outer: X,
    pub inner: Y,
}

impl<X: PartialOrder, Y: PartialOrder> PartialOrder for Product<X, Y> {
    type Value = (X::Value, Y::Value);

    ghost value = { λ p. (X.PartialOrder.value p.outer, Y.PartialOrder.value p.inner) };

    ghost below = { both X.PartialOrder.below Y.PartialOrder.below };

    ghost order = { Prim.search rules };

    fn less_equal(&self, other: &Product<X, Y>) -> bool {
        self.outer.less_equal(&other.outer) && self.inner.less_equal(&other.inner)
    }
}

impl<X: Lattice, Y: Lattice> Lattice for Product<X, Y> {
    ghost joined = { parts X.Lattice.joined Y.Lattice.joined };

    ghost met = { parts X.Lattice.met Y.Lattice.met };

    ghost joins = { Prim.search rules };

    ghost meets = { Prim.search rules };

    // Kept beside `meet`: the operation of the parts is all that differs, and all that each says.
    fn join(&self, other: &Product<X, Y>) -> Product<X, Y> {
        Product {
            outer: self.outer.join(&other.outer),
            inner: self.inner.join(&other.inner),
        }
    }

    fn meet(&self, other: &Product<X, Y>) -> Product<X, Y> {
        Product {
            outer: self.outer.meet(&other.outer),
            inner: self.inner.meet(&other.inner),
        }
    }
}

impl<X: Timestamp, Y: Timestamp> Timestamp for Product<X, Y> {
    ghost start = { (X.Timestamp.start, Y.Timestamp.start) };

    ghost least = { Prim.search rules };

    fn minimum() -> Product<X, Y> {
        Product {
            outer: X::minimum(),
            inner: Y::minimum(),
        }
    }
}
