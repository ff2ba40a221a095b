//! The tests of the server: worked examples of lines and answers, over memory and over sockets.
#![tactic(auto)]

#[cfg(test)]
mod device;
#[cfg(test)]
mod epochs;
#[cfg(test)]
mod failing;
#[cfg(test)]
mod keys;
mod limits;
#[cfg(test)]
mod lines;
#[cfg(test)]
mod sockets;
