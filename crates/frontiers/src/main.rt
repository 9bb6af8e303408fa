// Compares two lists of (round, week) times as frontiers.
//
// The lists stand on standard input, a time to a line: L, round and week for the first list, H,
// round and week for the second, parted by tabs.
#![tactic(auto)]

mod comparing;
mod fault;
mod frontier_table;
mod input;
mod reading;
mod report;
#[cfg(test)]
mod tests;

use report::report;
use std::io::Read;
use std::process::ExitCode;

fn main(rt: HostRuntime) -> anyhow::Result<ExitCode> {
    let mut bytes = Vec::new(rt.alloc());
    rt.stdin().read_to_end(&mut bytes)?;
    match report(rt.alloc(), bytes.as_slice()) {
        Ok(text) => {
            rt.print(text)?;
            Ok(ExitCode::SUCCESS)
        }
        Err(fault) => {
            eprintln!(rt; "{fault}")?;
            Ok(ExitCode::FAILURE)
        }
    }
}
