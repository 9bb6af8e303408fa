// Counts that belong to times.
ghost use Rattle.std.specs.Prelude.{◌≡◌, ℕ, ◌+◌, ◌-◌, ◌<◌, ◌≤◌, ◌++◌, map, length, take, drop, ℤ, ◌+ℤ◌, nat_le, slice_index_or};
ghost use Rattle.std.specs.List.{prefix_len};
ghost use Rattle.questions.specs.Answers.{Answered};
ghost use Rattle.frontier.specs.Counts.{added, entry, stopped, other};
ghost use Rattle.frontier.specs.Tables.{in_use, Holds, table_asks, counted};

use lattice::{PartialOrder, same_time};
use questions::Refusal;

// The place of the time's entry; where it has none, the place that an entry of it would have, behind the
// last.
fn find<T: PartialOrder>(table: &[(T, i64)], time: &T) -> usize
    ensures { result ≡ prefix_len (other T.below (T.value time.now)) (map (counted T.value) table.now) }
{
    table
        .iter()
        .position(|e| same_time(&e.0, time))
        .unwrap_or(table.len())
}

// Takes the entry at a place out of the first `len`, and keeps the order of the others.
fn remove_at<X>(table: &mut [X], len: usize, at: usize)
    requires { (at < len) × (len ≤ length table.old) }
    ensures front { take (len - 1) table.new ≡ take at table.old ++ drop (at + 1) (take len table.old) }
    ensures rest { drop len table.new ≡ drop len table.old }
{
    let part = &mut table[at..len];
    part.rotate_left(1);
}

// Adds to the count at a place among the first `len`; the entry goes where it comes to 0.  Tells
// how many entries there are then.
fn change_at<T: Copy>(table: &mut [(T, i64)], len: usize, at: usize, amount: i64) -> usize
    requires { (at < len) × (len ≤ length table.old) }
    ensures within { result ≤ len }
    ensures after { (e : T × ℤ) → e ≡ slice_index_or table.old at e → take result table.new ≡ take at table.old ++ (entry e.0 (stopped (e.1 +ℤ amount)) ++ drop (at + 1) (take len table.old)) }
    ensures rest { drop len table.new ≡ drop len table.old }
{
    let e = table[at];
    let sum = e.1.saturating_add(amount);
    if sum == 0 {
        remove_at(table, len, at);
        return len - 1;
    }
    table[at] = (e.0, sum);
    len
}

// Adds an amount to the count of a time in a table that has `len` entries in use and at most
// `limit`.  Tells how many entries it has then.
pub fn update<T: PartialOrder + Copy>(
    table: &mut [(T, i64)],
    len: usize,
    limit: usize,
    time: T,
    amount: i64,
) -> Result<usize, Refusal>
    ensures answer { Answered result
        (table_asks limit 11 (length table.old) len (nat_le (length (added T.below (in_use (counted T.value) len table.old) (T.value time) amount)) limit))
        (λ n. Holds (counted T.value) n table.new (added T.below (in_use (counted T.value) len table.old) (T.value time) amount))
        (table.new ≡ table.old) }
    ensures rest { drop limit table.new ≡ drop limit table.old }
{
    if len > limit || table.len() < limit {
        return Err(Refusal::ShortTable);
    }
    let all = &table[..];
    let at = find(&all[0..len], &time);
    if at < len {
        return Ok(change_at(table, len, at, amount));
    }
    if amount == 0 {
        return Ok(len);
    }
    if len >= limit {
        return Err(Refusal::ManyCounts);
    }
    table[len] = (time, amount);
    Ok(len + 1)
}
