// A frontier in a table of its own.
ghost use Rattle.std.specs.Prelude.{◌≡◌, ◌≤◌, take};

use lines::Time;
use std::fmt;

// Not an `ArrayVec`: a step fills a lent table of 32 (a rule of the project), and that lends none.
#[derive(Clone, Copy)]
pub struct FrontierTable {
    // the first `len` entries are in use
    pub times: [Time; 32],
    pub len: usize,
    ghost few: { len ≤ 32 },
}

impl fmt::Display for FrontierTable {
    fn fmt<W: fmt::Write>(&self, f: &mut fmt::Formatter<W>) -> fmt::Result {
        if self.len == 0 {
            return f.write_str(" none");
        }
        for time in self.as_slice() {
            write!(f, " ({}, {})", time.outer, time.inner)?;
        }
        Ok(())
    }
}

impl FrontierTable {
    // The times in use.
    pub fn as_slice(&self) -> &[Time]
        ensures { result.now ≡ take self.now.len self.now.times }
    {
        &self.times[..self.len]
    }
}
