// A statement that comes to tables that are lent one by one.
ghost use Rattle.std.specs.Prelude.{◌∷◌, length};
ghost use Rattle.questions.specs.Answers.{Answered};
ghost use Rattle.capture.specs.Kinds.{time_by};
ghost use Rattle.capture.specs.Statements.{advanced, statement_asks};
ghost use Rattle.capture.specs.Views.{statement_of};
ghost use Rattle.progress.specs.Tables.{progress_of, progress_sized, HoldsProgress};

use crate::{Lengths, ProgressTables, are_sized};
use capture::{Progress, StoredProgress};
use lattice::Timestamp;
use questions::Refusal;

// A statement comes to a reader whose progress stands in the tables: it is dropped, or acts and lets
// others act, or waits.  Tells how much of each table is in use then.
pub fn advance<T: Timestamp + Copy>(
    statement: Progress<'_, T>,
    frontier: &mut [T],
    counts: &mut [(T, i64)],
    waiting: &mut [StoredProgress<T>],
    lengths: Lengths,
    scratch: &mut [T],
) -> Result<Lengths, Refusal>
    ensures { Answered result
        ((progress_sized lengths frontier.old counts.old waiting.old scratch.old, 1) ∷ statement_asks (time_by T.Timestamp) (statement_of T.PartialOrder.value statement.entry) (progress_of T.PartialOrder.value lengths frontier.old counts.old waiting.old))
        (λ n. HoldsProgress T.PartialOrder.value n frontier.new counts.new waiting.new (advanced (time_by T.Timestamp) (statement_of T.PartialOrder.value statement.entry) (progress_of T.PartialOrder.value lengths frontier.old counts.old waiting.old)))
        (Unit {0}) }
{
    if !are_sized(lengths, frontier, counts, waiting, scratch) {
        return Err(Refusal::ShortTable);
    }
    let mut tables = ProgressTables {
        lengths,
        frontier,
        counts,
        waiting,
    };
    tables.advance(statement, scratch)?;
    Ok(tables.lengths)
}
