//! Texts that rows of several commands share.

pub use tl_test_data::{
    ADD, BOTH, CHAIN, FORK, LOOK, ONE_NODE, QUO, STORE, SWEEP, TURN, WALK, procedure_of, tree_of,
};

/// A root with a child that has a child; all fields are zero.
pub const ZEROS: &str =
    "{\"parents\":[0,0,1],\"records\":[[0,0,0,0,0,0,0,0],[0,0,0,0,0,0,0,0],[0,0,0,0,0,0,0,0]]}";

/// The procedures that a script or a trail names.
pub const THREE: &str =
    "[\"both\",\"arity 1\\nfirst n0 v1 else L10\\nchild n1 n0 v1 else L9\\nput n1 0 v0\\nrel n1\\nset v2 1\\nchild n1 n0 v2 else L9\\nget v3 n1 0\\nemit v3\\nrel n1\\nL9:\\nrel n0\\nL10:\\nret\\n\"],\
    [\"look\",\"arity 1\\nfirst n0 v0 else L4\\nget v1 n0 0\\nemit v1\\nrel n0\\nL4:\\nret\\n\"],\
    [\"store\",\"arity 2\\nfirst n0 v0 else L3\\nput n0 0 v1\\nrel n0\\nL3:\\nret\\n\"]";

pub const LOOK_ALONE: &str =
    "[\"look\",\"arity 1\\nfirst n0 v0 else L4\\nget v1 n0 0\\nemit v1\\nrel n0\\nL4:\\nret\\n\"]";

pub const SWEEP_ALONE: &str =
    "[\"sweep\",\"arity 1\\nfirst n0 v1 else L10\\nrep 12\\nget v2 n0 0\\nadd v2 v2 v0 else L4\\nL4:\\nput n0 0 v2\\nchild n1 n0 v1 else L9\\nrel n0\\nmove n0 n1\\nend\\nL9:\\nrel n0\\nL10:\\nret\\n\"]";
