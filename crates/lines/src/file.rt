// Whole files.
ghost use Rattle.std.specs.Prelude.{◌≡◌, List, Ok, Err, MatchResult};
ghost use Rattle.lines.specs.Format.{LessonMessage, file_says};

use crate::Malformed;
use crate::block::MessageBlock;
use crate::line_reader::LineReader;

// Asks every line of a file whether it is well formed; the error names the first that is not.  The
// block is there to work in.
pub fn check_lines(bytes: &[u8], block: &mut MessageBlock) -> Result<(), Malformed>
    ensures { MatchResult result (λ _. (ms : List LessonMessage) × (file_says bytes.now ≡ Ok ms)) (λ e. file_says bytes.now ≡ Err e.line) }
{
    let mut lines = LineReader::new(bytes);
    // A `match`, so that an edit of the line that is named keeps the shape.
    loop {
        match block.read(&mut lines) {
            Ok(true) => {}
            Ok(false) => return Ok(()),
            Err(malformed) => return Err(malformed),
        }
    }
}
