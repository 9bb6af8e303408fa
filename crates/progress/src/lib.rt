// What both sorts of reader share: statements at work, the lower edge, and which changes are new.
//
// All tables are lent to each call, which allocates nothing (a rule of the project); the first entries of
// each are in use.  `copy_progress`, `take_fresh` and
// `keep_beyond` are steps of our own readers, which see that the tables have the entries.
#![tactic(auto)]

mod advancing;
mod changes;
mod copies;
mod edges;
mod statements;
mod tables;
mod weighing;

pub use advancing::advance;
pub use changes::{lower_counts, take_fresh};
pub use copies::copy_progress;
pub use edges::{keep_beyond, lower_edge};
pub use statements::{
    LARGEST_COUNT, Lengths, add_counts, are_sized, is_counted_once, is_inside, is_sized, is_small,
};
pub use tables::ProgressTables;
pub use weighing::{Weighed, weigh_fresh};

// The entries that a table for a reader's counts has at least, and the counts that it has at most.
pub const COUNTS_SIZE: usize = capture::COUNTS_SIZE;
// The entries that a table for waiting statements has at least, and the statements that wait at most.
pub const WAITING_SIZE: usize = 32;
// The entries that a table for changes has at least, and the changes that are held at most.
pub const CHANGES_SIZE: usize = 2048;
