//! The tests of what is stored: a store that is made, crashes, is opened again, and makes its core and its trails again.
#![tactic(auto)]

#[cfg(test)]
mod closings;
#[cfg(test)]
mod crashes;
#[cfg(test)]
mod exports;
#[cfg(test)]
mod files;
#[cfg(test)]
mod seen;
#[cfg(test)]
mod steps;
