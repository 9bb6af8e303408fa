// Questions about lists of times.  None of them writes.
ghost use Rattle.std.specs.Prelude.{◌≡◌, map};
ghost use Rattle.frontier.specs.Frontiers.{beyond, leq, holds, within, equal, join, meet};
ghost use Rattle.frontier.specs.Laws.{BeyondBoth, BeyondEither, EqualByOrder};

use lattice::{Lattice, PartialOrder, same_time};

// Whether some time of the list is at or before the time.
pub fn is_beyond<T: PartialOrder>(list: &[T], time: &T) -> bool
    ensures { result ≡ beyond T.below (map T.value list.now) (T.value time.now) }
{
    list.iter().any(|e| e.less_equal(time))
}

// Whether every time of the other list is beyond the one.
pub fn antichain_less_equal<T: PartialOrder>(one: &[T], other: &[T]) -> bool
    ensures { result ≡ leq T.below (map T.value one.now) (map T.value other.now) }
{
    other.iter().all(|t| is_beyond(one, t))
}

// Whether the time stands in the list.
fn is_in<T: PartialOrder>(list: &[T], time: &T) -> bool
    ensures { result ≡ holds T.below (map T.value list.now) (T.value time.now) }
{
    list.iter().any(|e| same_time(e, time))
}

// Whether every time of the one list stands in the other.
fn is_within<T: PartialOrder>(one: &[T], other: &[T]) -> bool
    ensures { result ≡ within T.below (map T.value one.now) (map T.value other.now) }
{
    one.iter().all(|t| is_in(other, t))
}

// Whether two frontiers hold the same times, in whatever order.
pub fn antichain_equal<T: PartialOrder>(one: &[T], other: &[T]) -> bool
    ensures value { result ≡ equal T.below (map T.value one.now) (map T.value other.now) }
    ensures law { EqualByOrder T.below }
{
    is_within(one, other) && is_within(other, one)
}

// Whether the time is beyond the join of two lists, which need not be made for that.
pub fn is_beyond_join<T: Lattice>(one: &[T], other: &[T], time: &T) -> bool
    ensures value { result ≡ beyond T.PartialOrder.below (join T.PartialOrder.below T.joined (map T.PartialOrder.value one.now) (map T.PartialOrder.value other.now)) (T.PartialOrder.value time.now) }
    ensures law { BeyondBoth T.PartialOrder.below T.joined }
{
    is_beyond(one, time) && is_beyond(other, time)
}

// Whether the time is beyond the meet of two lists, which need not be made for that.
pub fn is_beyond_meet<T: PartialOrder>(one: &[T], other: &[T], time: &T) -> bool
    ensures value { result ≡ beyond T.below (meet T.below (map T.value one.now) (map T.value other.now)) (T.value time.now) }
    ensures law { BeyondEither T.below }
{
    is_beyond(one, time) || is_beyond(other, time)
}
