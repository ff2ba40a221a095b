//! The trails of a store: its epochs are taken again, one after another, and the auditor, who knows nothing of the store, judges each.
#![tactic(auto)]

mod counts;
mod differing;
mod exporting;
mod fault;
mod plan;
mod rows;
mod taker;
mod taking;

pub use counts::Counts;
pub use exporting::export;
pub use fault::ExportFault;
pub use plan::{Plan, read_plan};
pub use rows::rows_of;
pub use taker::TrailTaker;
pub use taking::take_again;
