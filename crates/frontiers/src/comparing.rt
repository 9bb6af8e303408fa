// Comparing two lists of times as frontiers.
ghost use Rattle.std.specs.Prelude.{◌≡◌, [], ◌∷◌, ◌++◌, map, length};
ghost use Rattle.questions.specs.Answers.{Answered};
ghost use Rattle.frontier.specs.Frontiers.{fits, pairwise, join, meet};
ghost use Rattle.frontier.specs.Tables.{in_use, frontier_size};
ghost use Rattle.frontiers.specs.Comparing.{reduced, Is, compare_asks, Compared};
ghost use Rattle.frontiers.specs.Times.{at_or_before, later};
ghost use Rattle.lines.specs.Values.{time_value};

use crate::frontier_table::FrontierTable;
use frontier::{antichain_less_equal, steps};
use lattice::Timestamp;
use lines::Time;
use questions::Refusal;
use std::fmt;

// Two lists compared as frontiers.
#[derive(Drop)]
pub struct Comparison {
    // what the lists reduce to
    pub first: FrontierTable,
    pub second: FrontierTable,
    // whether the one is at or before the other, and the other way round
    pub first_before: bool,
    pub second_before: bool,
    // the frontiers of both, and of all their joins
    pub meet: FrontierTable,
    pub join: FrontierTable,
}

fn yes_or_no(yes: bool) -> &'static str {
    if yes { "yes" } else { "no" }
}

impl fmt::Display for Comparison {
    fn fmt<W: fmt::Write>(&self, f: &mut fmt::Formatter<W>) -> fmt::Result {
        let first = &self.first;
        let second = &self.second;
        let first_before = yes_or_no(self.first_before);
        let second_before = yes_or_no(self.second_before);
        let meet = &self.meet;
        let join = &self.join;
        writeln!(f, "first frontier:{first}")?;
        writeln!(f, "second frontier:{second}")?;
        writeln!(f, "first at or before second: {first_before}")?;
        writeln!(f, "second at or before first: {second_before}")?;
        writeln!(f, "meet, what both offices may rely on:{meet}")?;
        writeln!(f, "join:{join}")
    }
}

// The frontier that a list reduces to.
// Kept beside the next two: over a closure, no tactic finds what the closure promises of its table.
fn reduce(list: &[Time]) -> Result<FrontierTable, Refusal>
    ensures { Answered result ((fits at_or_before frontier_size [] (map time_value list.now), 12) ∷ []) (λ f. Is f (reduced (map time_value list.now))) (Unit {0}) }
{
    let mut times = [Time::minimum(); 32];
    let len = steps::extend(&mut times, 0, list)?;
    Ok(FrontierTable { times, len })
}

// The meet of two frontiers: where either may still have changes to come.
fn meet_of(one: &[Time], other: &[Time]) -> Result<FrontierTable, Refusal>
    ensures { Answered result ((fits at_or_before frontier_size [] (map time_value one.now ++ map time_value other.now), 12) ∷ []) (λ f. Is f (meet at_or_before (map time_value one.now) (map time_value other.now))) (Unit {0}) }
{
    let mut times = [Time::minimum(); 32];
    let len = steps::meet_into(one, other, &mut times)?;
    Ok(FrontierTable { times, len })
}

// The join of two frontiers: where both may still have changes to come.
fn join_of(one: &[Time], other: &[Time]) -> Result<FrontierTable, Refusal>
    ensures { Answered result ((fits at_or_before frontier_size [] (pairwise later (map time_value one.now) (map time_value other.now)), 12) ∷ []) (λ f. Is f (join at_or_before later (map time_value one.now) (map time_value other.now))) (Unit {0}) }
{
    let mut times = [Time::minimum(); 32];
    let len = steps::join_into(one, other, &mut times)?;
    Ok(FrontierTable { times, len })
}

// Compares two lists as frontiers.
pub fn compare(one: &[Time], other: &[Time]) -> Result<Comparison, Refusal>
    ensures { Answered result (compare_asks (map time_value one.now) (map time_value other.now)) (λ c. Compared c (map time_value one.now) (map time_value other.now)) (Unit {0}) }
{
    let first = reduce(one)?;
    let second = reduce(other)?;
    let lower = first.as_slice();
    let upper = second.as_slice();
    let meet = meet_of(lower, upper)?;
    let join = join_of(lower, upper)?;
    let first_before = antichain_less_equal(lower, upper);
    let second_before = antichain_less_equal(upper, lower);
    Ok(Comparison {
        first,
        second,
        first_before,
        second_before,
        meet,
        join,
    })
}
