// Inserting a time into a frontier.
ghost use Rattle.std.specs.Prelude.{◌≡◌, ◌≤◌, map, length, drop, nat_le};
ghost use Rattle.questions.specs.Answers.{Answered};
ghost use Rattle.frontier.specs.Frontiers.{inserted, without};
ghost use Rattle.frontier.specs.Tables.{in_use, Holds, frontier_asks, frontier_size};
ghost use Rattle.frontier.specs.Laws.{InsertKeeps};

use crate::entries::retain;
use crate::{FRONTIER_SIZE, is_beyond};
use lattice::PartialOrder;
use questions::Refusal;

// How many times of the list are not at or after the time.
fn count_without<T: PartialOrder>(list: &[T], time: &T) -> usize
    ensures { result ≡ length (without T.below (T.value time.now) (map T.value list.now)) }
{
    list.iter().filter(|e| !time.less_equal(*e)).count()
}

// Keeps those of the first `len` times that are not at or after the time, and tells how many they are.
fn keep_without<T: PartialOrder + Copy>(table: &mut [T], len: usize, time: &T) -> usize
    requires { len ≤ length table.old }
    ensures within { result ≤ len }
    ensures after { Holds T.value result table.new (without T.below (T.value time.now) (in_use T.value len table.old)) }
    ensures rest { drop len table.new ≡ drop len table.old }
{
    retain(table, len, |e| !time.less_equal(e))
}

// Inserts a time into the frontier that stands in the first `len` entries, and tells how many
// times it has then.
pub fn insert<T: PartialOrder + Copy>(
    table: &mut [T],
    len: usize,
    time: T,
) -> Result<usize, Refusal>
    ensures answer { Answered result
        (frontier_asks (length table.old) len (nat_le (length (inserted T.below (in_use T.value len table.old) (T.value time))) frontier_size))
        (λ n. Holds T.value n table.new (inserted T.below (in_use T.value len table.old) (T.value time)))
        (table.new ≡ table.old) }
    ensures rest { drop frontier_size table.new ≡ drop frontier_size table.old }
    ensures law { InsertKeeps T.below }
{
    if len > FRONTIER_SIZE || table.len() < FRONTIER_SIZE {
        return Err(Refusal::ShortTable);
    }
    if is_beyond(&table[0..len], &time) {
        return Ok(len);
    }
    if count_without(&table[0..len], &time) >= FRONTIER_SIZE {
        return Err(Refusal::ManyTimes);
    }
    let n = keep_without(table, len, &time);
    table[n] = time;
    Ok(n + 1)
}
