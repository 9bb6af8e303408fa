// The error of a writer whose bytes are full.
ghost use Rattle.std.specs.Prelude.{Some, codes};

use std::error::Error;
use std::fmt;

// A text does not fit behind what is written already.
#[derive(Clone, Copy, Debug, PartialEq, Eq)]
pub struct Full;

// By hand: what `thiserror` writes promises nothing of the words.
impl fmt::Display for Full {
    ghost output = { λ _. Some (codes "the text does not fit") };

    fn fmt<W: fmt::Write>(&self, f: &mut fmt::Formatter<W>) -> fmt::Result {
        f.write_str("the text does not fit")
    }
}

impl Error for Full {}
