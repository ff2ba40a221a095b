//! What the verifier reports of accepted codes.

use crate::commands::Command::Verify;
use crate::commands::Row;
use crate::procedures::SPACED;
use crate::texts::{ADD, BOTH, LOOK, QUO, STORE, SWEEP, TURN, WALK};

const ROWS: &[Row] = &[
    (
        Verify(ADD),
        &["{\"bounds\":{\"emits\":1,\"locks\":1,\"steps\":7}}\n"],
    ),
    (
        Verify(QUO),
        &["{\"bounds\":{\"emits\":1,\"locks\":0,\"steps\":3}}\n"],
    ),
    (
        Verify(LOOK),
        &["{\"bounds\":{\"emits\":1,\"locks\":1,\"steps\":5}}\n"],
    ),
    (
        Verify(STORE),
        &["{\"bounds\":{\"emits\":0,\"locks\":1,\"steps\":4}}\n"],
    ),
    (
        Verify(BOTH),
        &["{\"bounds\":{\"emits\":1,\"locks\":3,\"steps\":11}}\n"],
    ),
    (
        Verify(WALK),
        &["{\"bounds\":{\"emits\":1,\"locks\":13,\"steps\":54}}\n"],
    ),
    (
        Verify(SWEEP),
        &["{\"bounds\":{\"emits\":0,\"locks\":13,\"steps\":88}}\n"],
    ),
    (
        Verify(TURN),
        &["{\"bounds\":{\"emits\":2,\"locks\":3,\"steps\":10}}\n"],
    ),
    (
        Verify(SPACED),
        &["{\"bounds\":{\"emits\":0,\"locks\":0,\"steps\":2}}\n"],
    ),
];

/// The rows of this table.
pub fn rows() -> &'static [Row] {
    ROWS
}
