// Taking in a statement.
ghost use Rattle.std.specs.Prelude.{◌≤◌, length};
ghost use Rattle.frontier.specs.Tables.{frontier_size};
ghost use Rattle.capture.specs.Messages.{statement as statement_message};
ghost use Rattle.capture.specs.Kinds.{kinds_by, time_by};
ghost use Rattle.capture.specs.Sizes.{reader_counts, reader_statements};
ghost use Rattle.capture.specs.Views.{change_of, statement_of};
ghost use Rattle.progress.specs.Tables.{progress_of};

use super::feeding::Feeding;
use capture::{Progress, StoredProgress};
use frontier::entries::copy_entries;
use lattice::{PartialOrder, Same, Timestamp};
use progress::{Lengths, advance, lower_edge};
use questions::Refusal;

impl<'a, D: Same + Copy, T: Timestamp + Copy, R: Same + Copy> Feeding<'a, D, T, R> {
    ghost use Rattle.iterator.specs.Feeding.{Ready, WeighsStatement, Takes};

    // Finds out what a statement would make of the reader's progress, and the lower edge then.  Tells
    // how much of each scratch table is in use.  Copied table by table: `&self` lends no `&mut` tables, as
    // tables that are lent together ask.
    fn weigh_statement(
        &self,
        statement: Progress<'_, T>,
        times: &mut [T],
        sums: &mut [(T, i64)],
        statements: &mut [StoredProgress<T>],
        edge: &mut [T],
    ) -> Result<(Lengths, usize), Refusal>
        requires reader { Ready self.now }
        requires scratch { (frontier_size ≤ length times.old) × (reader_counts ≤ length sums.old) × (reader_statements ≤ length statements.old) × (frontier_size ≤ length edge.old) }
        ensures { WeighsStatement (time_by T.Timestamp) T.PartialOrder.value result (statement_of T.PartialOrder.value statement.entry) (progress_of T.PartialOrder.value self.now.reader.now.progress self.now.frontier.now self.now.counts.now self.now.waiting.now) times.new sums.new statements.new edge.new }
    {
        let lengths = self.reader.progress;
        copy_entries(self.frontier, times, lengths.frontier);
        copy_entries(self.counts, sums, lengths.counts);
        copy_entries(self.waiting, statements, lengths.waiting);
        let n = advance(statement, times, sums, statements, lengths, edge)?;
        let left = &sums[..];
        let (len, stated) = (n.frontier, n.counts);
        let end = lower_edge(&times[0..len], &left[0..stated], edge)?;
        Ok((n, end))
    }

    // Takes in a statement.  Whether every question is answered yes is found out in scratch tables,
    // before anything of the reader is written.
    pub(super) fn take_statement(
        self,
        statement: Progress<'_, T>,
        times: &mut [T],
        sums: &mut [(T, i64)],
        statements: &mut [StoredProgress<T>],
        edge: &mut [T],
    ) -> Result<Option<(usize, usize)>, Refusal>
        requires reader { Ready self }
        requires scratch { (frontier_size ≤ length times.old) × (reader_counts ≤ length sums.old) × (reader_statements ≤ length statements.old) × (frontier_size ≤ length edge.old) }
        ensures { Takes (kinds_by D.Same T.Timestamp R.Same) T.PartialOrder.value (change_of D.Same.value T.PartialOrder.value R.Same.value) (statement_message (statement_of T.PartialOrder.value statement.entry)) result self.entry self.exit }
    {
        let (n, end) = self.weigh_statement(statement, times, sums, statements, edge)?;
        let Feeding {
            reader,
            frontier,
            reported,
            counts,
            held,
            waiting,
            published,
            told,
        } = self;
        copy_entries(times, frontier, n.frontier);
        copy_entries(sums, counts, n.counts);
        copy_entries(statements, waiting, n.waiting);
        reader.progress = n;
        Ok(reader.let_out(&edge[0..end], reported, held, published, told))
    }
}
