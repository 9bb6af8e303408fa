// What can go wrong with the input.
ghost use Rattle.std.specs.Prelude.{◌≡◌};
ghost use Rattle.frontiers.specs.declared.fault.Fault.TheVariants.{Refused as Refuses, Memory};

use crate::input::Expected;
use questions::Refusal;
use std::alloc::{AllocError, AllocFailed};
use thiserror::Error;

// Why there is nothing to tell.
#[derive(Debug, Drop, Error)]
pub enum Fault {
    // the number of the first malformed line, from 1, and what was expected there
    #[error("line {0}: expected {1}")]
    Malformed(usize, Expected),
    // the question that the comparison answers no
    #[error("refused, question {}: {}", .0.number(), .0)]
    Refused(Refusal),
    #[error("out of memory")]
    Memory,
}

// By hand: what `thiserror` writes says nothing of the fault that it makes.
impl<X: Drop> From<AllocFailed<X>> for Fault {
    ghost from_gives = { λ _ f. f ≡ Memory };

    fn from(_: AllocFailed<X>) -> Fault {
        Fault::Memory
    }
}

impl From<AllocError> for Fault {
    ghost from_gives = { λ _ f. f ≡ Memory };

    fn from(_: AllocError) -> Fault {
        Fault::Memory
    }
}

impl From<Refusal> for Fault {
    ghost from_gives = { λ r f. f ≡ Refuses r };

    fn from(refusal: Refusal) -> Fault {
        Fault::Refused(refusal)
    }
}
