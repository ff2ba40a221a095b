//! Texts of the procedure language, from bytes to bytes.

use std::process::Abort;
use std::test::Fail;
use tl_language_commands::{check_procs_cmd, compile_cmd, procs_cmd};

const ADD: &[u8] = b"field value = 0;\n\
    proc add(place, amount) { lock n = node(place); n.value += amount else {} emit n.value; }\n";

// A text, and the numbers of its first fault.
type Row = (&'static [u8], &'static [u64]);

const FAULTS: [Row; 12] = [
    (b"proc p() {\n    emit 1 $ 2;\n}", &[270, 2, 12]),
    (b"proc p() { emit 9223372036854775808; }", &[271, 1, 17]),
    (b"proc p() { emit 1 }", &[273, 1, 19]),
    (b"proc p() { emit x; }", &[275, 1, 17]),
    (b"proc p(a, a) {}", &[276, 1, 11]),
    (b"proc p() { emit 1 < 2; }", &[277, 1, 17]),
    (b"proc p() { repeat 0 {} }", &[280, 1, 19]),
    (
        b"proc p() { lock n = node(0); free n; free n; }",
        &[281, 1, 43],
    ),
    (
        b"proc p() { lock n = node(0); repeat 3 { free n; } }",
        &[283, 1, 30],
    ),
    (b"proc p() { return; emit 1; }", &[287, 1, 20]),
    (b"proc p() { repeat 33 { emit 1; } }", &[297, 1, 24]),
    (b"proc p() {} proc q() {}", &[289]),
];

#[test]
fn a_text_is_compiled(rt: HostRuntime) -> Result<(), Fail> {
    let (line, container) = compile_cmd(rt.alloc(), ADD, Some("add"))?;
    let told = "{\"bounds\":{\"emits\":1,\"locks\":1,\"steps\":8},\"count\":8}\n";
    assert_eq!(rt; line.as_str(), told);
    assert_eq!(rt; container.len(), 72);
    Ok(())
}

#[test]
fn procedures_are_listed(rt: HostRuntime) -> Result<(), Fail> {
    let line = procs_cmd(rt.alloc(), ADD)?;
    let told =
        "[[\"add\",\"version 2\\narity 2\\nfirst n0 v0 else L7\\nget v2 n0 0\\nadd v2 v2 v1 else L4\\n\
        put n0 0 v2\\nL4:\\nget v2 n0 0\\nemit v2\\nrel n0\\nL7:\\nret\\n\"]]\n";
    assert_eq!(rt; line.as_str(), told);
    Ok(())
}

#[test]
fn procedures_are_checked(rt: HostRuntime) -> Result<(), Fail> {
    let line = check_procs_cmd(rt.alloc(), ADD)?;
    let told = "[[\"add\",{\"bounds\":{\"emits\":1,\"locks\":1,\"steps\":8}}]]\n";
    assert_eq!(rt; line.as_str(), told);
    Ok(())
}

fn is_refused(rt: &(impl Abort + AllocGlobal), row: &Row) {
    let (text, numbers) = *row;
    match compile_cmd(rt.alloc(), text, None) {
        Ok(_) => assert!(rt; false),
        Err(fault) => assert_eq!(rt; fault.numbers().as_slice(), numbers),
    }
}

#[test]
fn first_faults_are_told(rt: HostRuntime) {
    for row in &FAULTS {
        is_refused(&rt, row);
    }
}
