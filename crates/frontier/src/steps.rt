// Steps that our own crates share.
//
// Where a step refuses, what it wrote into its table stays there.  So callers hand it a scratch
// table, and take over what it made only when it was accepted.
ghost use Rattle.std.specs.Prelude.{◌≡◌, [], ◌++◌, map, length, drop, List, ℤ};
ghost use Rattle.std.specs.Iterator.{AlwaysYields, IsFinite};
ghost use Rattle.questions.specs.Answers.{Answered};
ghost use Rattle.frontier.specs.Frontiers.{inserted_all, fits, pairwise, join, meet};
ghost use Rattle.frontier.specs.Counts.{added_all, room};
ghost use Rattle.frontier.specs.Tables.{in_use, Holds, frontier_asks, frontier_size, table_asks, counted};

use crate::{FRONTIER_SIZE, insert, update};
use lattice::{Lattice, PartialOrder};
use questions::Refusal;

// Inserts each time that the iterator gives into the frontier that stands in the first `len`
// entries, and tells how many times it has then.
pub fn insert_all<T: PartialOrder + Copy, I: Iterator<Item = T>>(
    table: &mut [T],
    len: usize,
    times: I,
) -> Result<usize, Refusal>
    requires can { I.can_next times }
    requires finite { IsFinite (I.remaining times) }
    ensures answer { (all : List T.Value) → AlwaysYields I.next_gives T.value times all → Answered result
        (frontier_asks (length table.old) len (fits T.below frontier_size (in_use T.value len table.old) all))
        (λ n. Holds T.value n table.new (inserted_all T.below (in_use T.value len table.old) all))
        (Unit {0}) }
    ensures rest { drop frontier_size table.new ≡ drop frontier_size table.old }
{
    if len > FRONTIER_SIZE || table.len() < FRONTIER_SIZE {
        return Err(Refusal::ShortTable);
    }
    let mut n = len;
    for t in times {
        n = insert(table, n, t)?;
    }
    Ok(n)
}

// Inserts each time of the list, in its order, into the frontier that stands in the first `len`
// entries, and tells how many times it has then.
pub fn extend<T: PartialOrder + Copy>(
    table: &mut [T],
    len: usize,
    list: &[T],
) -> Result<usize, Refusal>
    ensures answer { Answered result
        (frontier_asks (length table.old) len (fits T.below frontier_size (in_use T.value len table.old) (map T.value list.now)))
        (λ n. Holds T.value n table.new (inserted_all T.below (in_use T.value len table.old) (map T.value list.now)))
        (Unit {0}) }
    ensures rest { drop frontier_size table.new ≡ drop frontier_size table.old }
{
    insert_all(table, len, list.iter().copied())
}

// Adds each amount that the iterator gives to the count of its time, in a table that has `len`
// entries in use and at most `limit`, and tells how many it has then.  Kept beside `insert_all`: the step
// and what it asks are all that each says.
pub fn update_all<T: PartialOrder + Copy, I: Iterator<Item = (T, i64)>>(
    table: &mut [(T, i64)],
    len: usize,
    limit: usize,
    amounts: I,
) -> Result<usize, Refusal>
    requires can { I.can_next amounts }
    requires finite { IsFinite (I.remaining amounts) }
    ensures answer { (all : List (T.Value × ℤ)) → AlwaysYields I.next_gives (counted T.value) amounts all → Answered result
        (table_asks limit 11 (length table.old) len (room T.below limit (in_use (counted T.value) len table.old) all))
        (λ n. Holds (counted T.value) n table.new (added_all T.below (in_use (counted T.value) len table.old) all))
        (Unit {0}) }
    ensures rest { drop limit table.new ≡ drop limit table.old }
{
    if len > limit || table.len() < limit {
        return Err(Refusal::ShortTable);
    }
    let mut n = len;
    for (time, amount) in amounts {
        n = update(table, n, limit, time, amount)?;
    }
    Ok(n)
}

// Makes the join of two lists in a table, the first list outermost.
pub fn join_into<T: Lattice + Copy>(
    one: &[T],
    other: &[T],
    table: &mut [T],
) -> Result<usize, Refusal>
    ensures answer { Answered result
        (frontier_asks (length table.old) 0 (fits T.PartialOrder.below frontier_size [] (pairwise T.joined (map T.PartialOrder.value one.now) (map T.PartialOrder.value other.now))))
        (λ n. Holds T.PartialOrder.value n table.new (join T.PartialOrder.below T.joined (map T.PartialOrder.value one.now) (map T.PartialOrder.value other.now)))
        (Unit {0}) }
    ensures rest { drop frontier_size table.new ≡ drop frontier_size table.old }
{
    let joins = one
        .iter()
        .flat_map(|t| other.iter().map(move |u| t.join(u)));
    insert_all(table, 0, joins)
}

// Makes the meet of two lists in a table, the first list first.
pub fn meet_into<T: PartialOrder + Copy>(
    one: &[T],
    other: &[T],
    table: &mut [T],
) -> Result<usize, Refusal>
    ensures answer { Answered result
        (frontier_asks (length table.old) 0 (fits T.below frontier_size [] (map T.value one.now ++ map T.value other.now)))
        (λ n. Holds T.value n table.new (meet T.below (map T.value one.now) (map T.value other.now)))
        (Unit {0}) }
    ensures rest { drop frontier_size table.new ≡ drop frontier_size table.old }
{
    insert_all(table, 0, one.iter().chain(other).copied())
}
