// The law that the books of every exchange keep.  This function computes nothing: its contract is the theorem.
ghost use Rattle.capture.specs.Kinds.{kinds_by};
ghost use Rattle.capture.specs.Posts.{post};
ghost use Rattle.exchange.specs.Law.{LawOfBooks};

use capture::Writer;
use lattice::{Lattice, PartialOrder, Same, Timestamp};

// Books that come of a run keep the law, and every call on them leads to books that come of a run,
// in which no reader's frontier is further back.
pub fn law_of_books<D: Same, T: Timestamp, R: Same, P: Writer<D, T, R>, Q: Writer<D, T, R>>()
    ensures { LawOfBooks (kinds_by D.Same T.Timestamp R.Same) (post P.Writer.taken P.Writer.ready P.Writer.committed) (post Q.Writer.taken Q.Writer.ready Q.Writer.committed) }
{}
