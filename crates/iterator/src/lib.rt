// The reader that holds changes back until its frontier is past them.
//
// All tables are lent to each call, which allocates nothing: the first entries of each are in use, and
// the reader is the numbers of these (a rule of the project).
#![tactic(auto)]

mod edges;
mod held;

pub use held::{Held, HeldAnswer, HeldScratch, HeldTables};
