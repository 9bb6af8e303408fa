// The line format: numbers as bytes, and lines and fields as parts of the bytes that hold them.
#![tactic(auto)]

mod block;
mod cuts;
mod fields;
mod file;
mod line;
mod line_reader;
mod malformed;
mod numbers;
mod part;
mod said;
mod statement;
mod updates;

pub use block::MessageBlock;
pub use cuts::cut;
pub use fields::TAB;
pub use file::check_lines;
use lattice::Product;
pub use line::{Line, read_line};
pub use line_reader::{LINE_END, LineReader};
pub use malformed::Malformed;
pub use numbers::number;
use timetable::Week;

// A planning round and a week of it.
pub type Time = Product<u64, Week>;
