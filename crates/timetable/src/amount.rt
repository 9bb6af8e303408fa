// Lesson amounts.
ghost use Rattle.std.specs.Prelude.{◌≡◌, T, [], ◌∷◌};
ghost use Rattle.lattice.specs.Sameness.{eqb_signed};
ghost use Rattle.questions.specs.Answers.{Answered};
ghost use Rattle.timetable.specs.Lessons.{is_amount, amount_value};
ghost use Rattle.std.proofs.Common.{rules};

use crate::or_least;
use lattice::Same;
use questions::Refusal;

// By how much a lesson changes.
// No equality is derived: a stored one outside its form is the same as -1,000 (a rule of the project).
#[derive(Clone, Copy, Debug)]
pub struct Amount {
    // -1,000 to 1,000; any other number reads as -1,000
    number: i16,
}

fn is_amount(n: i64) -> bool
    ensures { result ≡ is_amount n }
{
    (-1_000..=1_000).contains(&n)
}

impl Amount {
    // The amount of a number.
    // Kept beside `Week::new`: the cast has to stand behind the test, and the types differ.
    pub fn new(n: i64) -> Result<Amount, Refusal>
        ensures { Answered result ((is_amount n, 14) ∷ []) (λ a. amount_value a ≡ n) (Unit {0}) }
    {
        if is_amount(n) {
            Ok(Amount { number: n as i16 })
        } else {
            Err(Refusal::Malformed)
        }
    }

    // The number of the amount.
    pub fn number(&self) -> i16
        ensures value { result ≡ amount_value self.now }
        ensures form { T (is_amount result) }
    {
        or_least(self.number, is_amount(self.number as i64), -1_000)
    }
}

impl TryFrom<i64> for Amount {
    type Error = Refusal;

    ghost try_from_gives = { λ n r. Answered r ((is_amount n, 14) ∷ []) (λ a. amount_value a ≡ n) (Unit {0}) };

    fn try_from(n: i64) -> Result<Amount, Refusal> {
        Amount::new(n)
    }
}

impl Same for Amount {
    type Value = i16;

    ghost value = { amount_value };

    ghost alike = { eqb_signed };

    ghost exact = { Prim.search rules };

    fn same(&self, other: &Amount) -> bool {
        self.number() == other.number()
    }
}
