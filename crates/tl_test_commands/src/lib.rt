//! The tests of all crates: worked examples over bytes, and each public function that allocates, run once with ample memory. The
//! tests of running threads are in `tl_test_threads`.
//!
//! A test is proved with its crate. So the tests are together here, and each crate below is proved once, without them. A row of a
//! table costs almost nothing to prove, but a function does. So what a command prints is a row in `alone`, `audit`, `containers`,
//! `chains`, `drive`, `procedures` or `run`, and one function in `commands` runs them all, from bytes to bytes. A folder has a
//! table for each subject. `changed` has good files, each with one of its bytes changed. `cores`, `machine`, `serial`, `silent` and
//! `tree` test what no command shows.
#![tactic(auto)]

#[cfg(test)]
mod alone;
#[cfg(test)]
mod audit;
#[cfg(test)]
mod chains;
#[cfg(test)]
mod changed;
#[cfg(test)]
mod commands;
#[cfg(test)]
mod containers;
#[cfg(test)]
mod cores;
#[cfg(test)]
mod drive;
#[cfg(test)]
mod fault;
#[cfg(test)]
mod language;
#[cfg(test)]
mod limits;
#[cfg(test)]
mod machine;
#[cfg(test)]
mod procedures;
#[cfg(test)]
mod run;
#[cfg(test)]
mod serial;
#[cfg(test)]
mod silent;
#[cfg(test)]
mod texts;
#[cfg(test)]
mod tree;
