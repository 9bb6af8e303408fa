#![tactic(auto)]

// Examples and limits of the libraries, run as tests.  They stand in a crate of their own, so that
// no library is proved a second time for its tests.
#[cfg(test)]
mod files;
#[cfg(test)]
mod frontiers_and_counts;
#[cfg(test)]
mod lines_written;
#[cfg(test)]
mod weeks_and_lessons;
