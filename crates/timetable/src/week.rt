// Weeks as a kind of time.
ghost use Rattle.std.specs.Prelude.{◌≡◌, min, max, T, [], ◌∷◌, Some, nat_le};
ghost use Rattle.std.specs.Fmt.{decimal};
ghost use Rattle.questions.specs.Answers.{Answered};
ghost use Rattle.timetable.specs.Weeks.{weeks_in, is_week, week_value};
ghost use Rattle.std.proofs.Common.{rules};

use crate::or_least;
use lattice::{Lattice, PartialOrder, Timestamp};
use questions::Refusal;
use std::fmt;

// A week of a year, or 0, the start, which is before them all.
// No equality is derived: a stored week outside its form is the same as 0 (a rule of the project).
#[derive(Clone, Copy, Debug)]
pub struct Week {
    // the year times 100 and the week in it, or 0; a number of another form reads as 0
    number: u32,
}

// How many weeks a year has.
#[tactic(auto, unfolding(crate::specs::Weeks::weeks_in))]
fn weeks_in(year: u64) -> u64
    ensures { result ≡ weeks_in year }
{
    52
}

// Whether a number is 0 or the number of a week.
#[tactic(auto, unfolding(crate::specs::Weeks::is_week))]
fn is_week(n: u64) -> bool
    ensures { result ≡ is_week n }
{
    let year = n / 100;
    let week = n % 100;
    n == 0 || ((2000..=2199).contains(&year) && (1..=weeks_in(year)).contains(&week))
}

impl Week {
    // The week of a number.
    #[tactic(auto, unfolding(crate::specs::Weeks::is_week))]
    pub fn new(n: u64) -> Result<Week, Refusal>
        ensures { Answered result ((is_week n, 14) ∷ []) (λ w. week_value w ≡ n) (Unit {0}) }
    {
        if is_week(n) {
            Ok(Week { number: n as u32 })
        } else {
            Err(Refusal::Malformed)
        }
    }

    // The number of the week.
    #[tactic(auto, unfolding(crate::specs::Weeks::is_week))]
    pub fn number(&self) -> u32
        ensures value { result ≡ week_value self.now }
        ensures form { T (is_week result) }
    {
        or_least(self.number, is_week(self.number as u64), 0)
    }
}

impl TryFrom<u64> for Week {
    type Error = Refusal;

    ghost try_from_gives = { λ n r. Answered r ((is_week n, 14) ∷ []) (λ w. week_value w ≡ n) (Unit {0}) };

    fn try_from(n: u64) -> Result<Week, Refusal> {
        Week::new(n)
    }
}

impl fmt::Display for Week {
    ghost output = { λ w. Some (decimal (week_value w)) };

    fn fmt<W: fmt::Write>(&self, f: &mut fmt::Formatter<W>) -> fmt::Result {
        write!(f, "{}", self.number())
    }
}

impl PartialOrder for Week {
    type Value = u32;

    ghost value = { week_value };

    ghost below = { nat_le };

    ghost order = { Prim.search rules };

    fn less_equal(&self, other: &Week) -> bool {
        self.number() <= other.number()
    }
}

impl Lattice for Week {
    ghost joined = { max };

    ghost met = { min };

    ghost joins = { Prim.search rules };

    ghost meets = { Prim.search rules };

    // Kept beside `meet`: the one word that differs is all that each says.
    fn join(&self, other: &Week) -> Week {
        Week {
            number: self.number().max(other.number()),
        }
    }

    fn meet(&self, other: &Week) -> Week {
        Week {
            number: self.number().min(other.number()),
        }
    }
}

impl Timestamp for Week {
    ghost start = { 0 };

    ghost least = { Prim.search rules };

    fn minimum() -> Week {
        Week { number: 0 }
    }
}
