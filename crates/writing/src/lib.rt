// Writing the line format: lines and messages written into lent bytes, and the round trip.
#![tactic(auto)]

mod entries;
mod entry;
mod full;
mod line_writer;
mod lines_post;
mod messages;
mod round_trip;
mod texts;

pub use entries::{put_changes, put_times};
pub use entry::Entry;
pub use full::Full;
pub use line_writer::LineWriter;
pub use lines_post::LinesPost;
pub use messages::write_message;
pub use round_trip::reads_back;
pub use texts::put_line;
