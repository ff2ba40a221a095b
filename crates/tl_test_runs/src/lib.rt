//! The tests of what commands do with engines on threads: a run, what is concluded of an engine, and generations.
//!
//! A function here owns no engine: `tl_test_engines` makes, lends and closes them.
#![tactic(auto)]

#[cfg(test)]
mod concluding;
#[cfg(test)]
mod generations;
#[cfg(test)]
mod runs;
