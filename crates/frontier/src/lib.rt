// Frontiers and counts, written once for every kind of time.
//
// A table is a lent slice whose first entries are in use, and how many is a number beside it: no call
// allocates (a rule of the project).  A frontier has at most 32 times, so a
// table for one has at least 32 entries; a longer one is taken, and its further entries are left
// alone.  A refused call leaves every table as it was.
#![tactic(auto)]

mod antichain;
mod counts;
pub mod entries;
mod joins;
mod lists;
pub mod steps;

pub use antichain::insert;
pub use counts::update;
pub use joins::{antichain_join_into, antichain_meet};
pub use lists::{antichain_equal, antichain_less_equal, is_beyond, is_beyond_join, is_beyond_meet};

// The times that a frontier has at most, and the entries that a table for one has at least.
pub const FRONTIER_SIZE: usize = 32;
