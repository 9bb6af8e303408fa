// The program's answer to its input.
ghost use Rattle.std.specs.Result.{MatchResult};
ghost use Rattle.frontiers.specs.Telling.{Tells, Untold};

use crate::comparing::compare;
use crate::fault::Fault;
use crate::reading::read;
use std::alloc::Global;

// The lines that tell of the input's two lists.
pub fn report(heap: Global, bytes: &[u8]) -> Result<String, Fault>
    ensures { MatchResult result (λ _. Tells bytes.now) (λ f. Untold f bytes.now) }
{
    let input = read(heap, bytes)?;
    let comparison = compare(input.first.as_slice(), input.second.as_slice())?;
    let lines = input.lines;
    let text = format!(in heap; "lines read: {lines}\n{comparison}")?;
    Ok(text)
}
