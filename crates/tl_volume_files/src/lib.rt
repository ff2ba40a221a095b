//! The files of a store in volumes: their names, and the sums of those that are closed.
#![tactic(auto)]

mod folder;
mod name;
mod sums;

pub use folder::{Volumes, has_log, make_folder, volumes_in};
pub use name::volume_number;
pub use sums::{SUMS, list_of, listed, sum_of};
