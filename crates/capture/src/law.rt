// The law that every run keeps, and examples of what it speaks of.  These functions compute
// nothing: their contracts are the theorems.
ghost use Rattle.capture.specs.Kinds.{kinds_by};
ghost use Rattle.capture.specs.Posts.{post};
ghost use Rattle.capture.specs.Law.{Law};
ghost use Rattle.capture.specs.WellMade.{MessagesWellMade};
ghost use Rattle.capture.specs.Deliveries.{Deliveries};
ghost use Rattle.capture.specs.Sample.{Sample};

use crate::Writer;
use lattice::{Lattice, PartialOrder, Same, Timestamp};

// Every run of one sender, its two posts and any number of readers keeps the law, at every kind of
// data, time and amount, and for posts of every kind.  It asks that readers are handed only
// messages that the posts took, and that no data is recorded twice at one time.
pub fn law_of_runs<D: Same, T: Timestamp, R: Same, P: Writer<D, T, R>, Q: Writer<D, T, R>>()
    ensures { Law (kinds_by D.Same T.Timestamp R.Same) (post P.Writer.taken P.Writer.ready P.Writer.committed) (post Q.Writer.taken Q.Writer.ready Q.Writer.committed) }
{}

// Every message that the sender of a run made passes, at every reader, the questions that are asked of
// it alone.  Nothing is asked of what is recorded.
pub fn messages_of_runs<D: Same, T: Timestamp, R: Same, P: Writer<D, T, R>, Q: Writer<D, T, R>>()
    ensures { MessagesWellMade (kinds_by D.Same T.Timestamp R.Same) (post P.Writer.taken P.Writer.ready P.Writer.committed) (post Q.Writer.taken Q.Writer.ready Q.Writer.committed) }
{}

// Deliveries worked through by hand come out of the definitions as they should.
pub fn worked_deliveries()
    ensures { Deliveries }
{}

// The law is not empty: a run in which a held and a prompt reader come level with the sender.
pub fn sample_run()
    ensures { Sample }
{}
