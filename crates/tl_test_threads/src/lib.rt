//! The tests of running threads: tables, and engines with the calls and batches of their sessions.
//!
//! A function here owns no table and no engine: `tl_test_engines` makes, lends and closes them.
#![tactic(auto)]

#[cfg(test)]
mod crossing;
#[cfg(test)]
mod engines;
#[cfg(test)]
mod limits;
#[cfg(test)]
mod places;
#[cfg(test)]
mod ready;
#[cfg(test)]
mod sweeps;
#[cfg(test)]
mod tables;
#[cfg(test)]
mod waiting;
