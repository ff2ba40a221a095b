//! Trees of records: the shape of a tree, the records of its nodes, and its text.
#![tactic(auto)]

mod fault;
mod record;
mod shape;
mod text;
mod tree;
mod value;

pub use fault::TreeFault;
pub use record::{Record, Width};
pub use shape::{MAX_NODES, Shape, USUAL_NODES};
pub use text::{read_tree, write_tree};
pub use tl_width::FIELD_COUNT;
pub use tree::Tree;
pub use value::{
    integers_from_value, integers_to_value, record_from_value, record_to_value, records_from_value,
    records_to_value, tree_from_value, tree_to_value,
};
