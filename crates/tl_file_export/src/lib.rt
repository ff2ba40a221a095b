//! The trails of a store in a file, in files one after another.
#![tactic(auto)]

mod epochs;
mod exporting;
mod files;
mod splitting;

pub use epochs::{Epochs, FileEpochs, open_epochs};
pub use exporting::export_files;
pub use files::TrailFiles;
