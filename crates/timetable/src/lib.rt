// What the schools' messages hold: weeks as times, lessons with their amounts, and option forms.
//
// Weeks, lessons and amounts lie in tables as plain numbers that only their own modules write.
// Their makers refuse a number that has not its form, and a stored one that has not reads as the
// least that has; so every reading keeps the form, whatever a table holds.
#![tactic(auto)]

ghost use Rattle.std.specs.Prelude.{◌≡◌, cond};

mod amount;
mod lesson;
mod options;
mod week;

pub use amount::Amount;
pub use lesson::Lesson;
pub use options::{Choice, OptionForm};
pub use week::Week;

// What a stored number reads as: itself where it has its form, and else the least that has.
fn or_least<N: Copy>(n: N, has_form: bool, least: N) -> N
    ensures { result ≡ cond has_form n least }
{
    if has_form { n } else { least }
}
