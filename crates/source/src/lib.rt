// The reader that gives out every change at once.
//
// All tables are lent to each call, which allocates nothing: the first entries of each are in use, and
// the reader is the numbers of these (a rule of the project).
#![tactic(auto)]

mod disputes;
mod prompt;
mod weighing;

pub use prompt::{NoteScratch, Prompt};
