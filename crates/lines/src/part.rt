// The parts of a statement, in the order of their lines.
ghost use Rattle.std.specs.Prelude.{◌≡◌};
ghost use Rattle.lines.specs.Format.{until_lower, until_upper};

// The part that a statement's last line belongs to.
#[derive(Clone, Copy)]
pub enum Part {
    // times of the lower list, or none yet
    Lower,
    // times of the upper list
    Upper,
    // counts
    Counts,
}

impl Part {
    // Whether an L line may come.
    pub(crate) fn until_lower(self) -> bool
        ensures { result ≡ until_lower self }
    {
        matches!(self, Part::Lower)
    }

    // Whether an H line may come.
    pub(crate) fn until_upper(self) -> bool
        ensures { result ≡ until_upper self }
    {
        matches!(self, Part::Lower | Part::Upper)
    }
}
