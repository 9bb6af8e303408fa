// Option forms, the data of the pupils' choices.  Their amounts are plain signed numbers.
ghost use Rattle.std.specs.Prelude.{◌≡◌};
ghost use Rattle.timetable.specs.Choices.{alike_forms};
ghost use Rattle.std.proofs.Common.{rules};

use lattice::Same;

// What a pupil chooses, with the number of the subject.
#[derive(Clone, Copy, Debug, PartialEq, Eq)]
pub enum Choice {
    // asks for the subject
    Wants(u16),
    // asks for the subject in reserve
    Reserves(u16),
    // asks for none any more
    Withdraws,
}

// One form handed in.
#[derive(Clone, Copy, Debug, PartialEq, Eq)]
pub struct OptionForm {
    // the number of the pupil
    pub pupil: u16,
    // what that pupil chooses
    pub choice: Choice,
}

impl Same for OptionForm {
    type Value = OptionForm;

    ghost value = { λ f. f };

    ghost alike = { alike_forms };

    ghost exact = { Prim.search rules };

    fn same(&self, other: &OptionForm) -> bool {
        *self == *other
    }
}
