// Kinds of time, and what it means that two values are the same.
//
// A stored value *reads as* a value of the trait's `Value`, and all that is promised is said of
// what values read as.  So two stored values that read alike are equal in every promise above.
#![tactic(auto)]

ghost use Rattle.std.specs.Prelude.{◌≡◌, Bool, true, T, Decides};
ghost use Rattle.lattice.specs.Orders.{Order, Joins, Meets, Starts, at_once};
ghost use Rattle.lattice.specs.Sameness.{Exact};

mod product;
mod rounds;
mod signed;

pub use product::Product;

// Data and amounts: all that is asked of them is whether two are the same.
// Not `PartialEq`: two stored values that read alike are the same (a rule of the project).
pub trait Same: Sized {
    // what a stored value reads as
    type Value;

    ghost value: { Self → Self.Value };

    ghost alike: { Self.Value → Self.Value → Bool };

    fn same(&self, other: &Self) -> bool
        ensures { result ≡ alike (value self.now) (value other.now) };

    ghost exact: { Exact alike };
}

// Times, of which some are at or before others.
// Not `PartialOrd`: times are ordered by what they read as (a rule of the project).
pub trait PartialOrder: Sized {
    // what a stored time reads as
    type Value;

    ghost value: { Self → Self.Value };

    // the first time is at or before the second
    ghost below: { Self.Value → Self.Value → Bool };

    fn less_equal(&self, other: &Self) -> bool
        ensures { result ≡ below (value self.now) (value other.now) };

    ghost order: { Order below };
}

// Times of which any two have a least time at or after both, and a greatest at or before both.
pub trait Lattice: PartialOrder {
    ghost joined: { Self.Value → Self.Value → Self.Value };

    ghost met: { Self.Value → Self.Value → Self.Value };

    fn join(&self, other: &Self) -> Self
        ensures { Self.PartialOrder.value result ≡ joined (Self.PartialOrder.value self.now) (Self.PartialOrder.value other.now) };

    fn meet(&self, other: &Self) -> Self
        ensures { Self.PartialOrder.value result ≡ met (Self.PartialOrder.value self.now) (Self.PartialOrder.value other.now) };

    ghost joins: { Joins Self.PartialOrder.below joined };

    ghost meets: { Meets Self.PartialOrder.below met };
}

// Times with a least one, at which every frontier starts.
pub trait Timestamp: PartialOrder + Lattice {
    ghost start: { Self.Value };

    fn minimum() -> Self
        ensures { Self.PartialOrder.value result ≡ start };

    ghost least: { Starts Self.PartialOrder.below start };
}

// Moves a time on to its join with another.
// Kept beside `meet_assign`: a call is all that either does, so one for both is no plainer.
pub fn join_assign<T: Lattice + Copy>(time: &mut T, other: &T)
    ensures { T.PartialOrder.value time.new ≡ T.joined (T.PartialOrder.value time.old) (T.PartialOrder.value other.now) }
{
    *time = time.join(other);
}

// Moves a time back to its meet with another.
pub fn meet_assign<T: Lattice + Copy>(time: &mut T, other: &T)
    ensures { T.PartialOrder.value time.new ≡ T.met (T.PartialOrder.value time.old) (T.PartialOrder.value other.now) }
{
    *time = time.meet(other);
}

// Whether two times are the same, by their order alone.
pub fn same_time<X: PartialOrder>(one: &X, other: &X) -> bool
    ensures value { result ≡ at_once X.below (X.value one.now) (X.value other.now) }
    ensures exact { Decides result (X.value one.now ≡ X.value other.now) }
{
    one.less_equal(other) && other.less_equal(one)
}
