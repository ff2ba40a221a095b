//! The tests of epochs: cores, tables and engines that are sealed at rest and go on.
//!
//! A function here owns no core, no table and no engine: `tl_test_engines` makes, lends and closes them. Whenever it closes one, it
//! audits the chain of its trails.
#![tactic(auto)]

#[cfg(test)]
mod cores;
#[cfg(test)]
mod engines;
#[cfg(test)]
mod sealing;
#[cfg(test)]
mod tables;
