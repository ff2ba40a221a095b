//! Lines that seal epochs, and calls before and after.

use crate::device::Written;
use crate::lines::served;
use std::alloc::Global;
use std::process::Abort;
use std::sync::Wait;
use std::test::Fail;
use std::thread::Threads;
use tl_server::Bytes;

/// A `register` of a procedure, and a call of it.
const QUO: &[u8] =
    b"{\"asm\":\"arity 2\\ndiv v2 v0 v1 else L2\\nemit v2\\nL2:\\nret\",\"name\":\"quo\",\"op\":\"register\"}\n";

const CALL: &[u8] = b"{\"args\":[6,3],\"op\":\"call\",\"proc\":\"quo\"}\n";

const SEAL: &[u8] = b"{\"op\":\"seal\"}\n";

/// Lines, and their answers.
const ROWS: [(&[u8], &[u8]); 9] = [
    (QUO, b"{\"bounds\":{\"emits\":1,\"locks\":0,\"steps\":3}}\n"),
    (CALL, b"{\"call\":0,\"reply\":[2]}\n"),
    (SEAL, b"{\"sealed\":0}\n"),
    (CALL, b"{\"call\":0,\"epoch\":1,\"reply\":[2]}\n"),
    (
        b"{\"calls\":[[\"quo\",[9,3]],[\"quo\",[0]],[\"quo\",[8,3]]],\"op\":\"batch\",\"workers\":1}\n",
        b"{\"batch\":[{\"call\":1,\"epoch\":1,\"reply\":[3]},{\"error\":[501]},{\"call\":2,\"epoch\":1,\"reply\":[2]}]}\n",
    ),
    (SEAL, b"{\"sealed\":1}\n"),
    (b"{\"epoch\":0,\"op\":\"seal\"}\n", b"{\"error\":[901]}\n"),
    (
        b"{\"args\":[6,3],\"key\":\"one\",\"op\":\"call\",\"proc\":\"quo\"}\n",
        b"{\"error\":[901]}\n",
    ),
    (b"{\"op\":\"close\"}\n", b"{\"closed\":true}\n"),
];

#[test]
fn a_seal_is_a_line(rt: HostRuntime) -> Result<(), Fail> {
    let mut lines = Vec::new(rt.alloc());
    let mut answers = Vec::new(rt.alloc());
    for (line, answer) in ROWS {
        lines.extend_from_slice(line)?;
        answers.extend_from_slice(answer)?;
    }
    let mut source = Bytes::new(lines.as_slice(), 1000);
    let mut sink = Written::new(&rt, rt.alloc(), 1000, u32::MAX);
    let served = served(&rt, rt.alloc(), &mut source, &mut sink)?;
    assert_eq!(rt; sink.text.as_slice(), answers.as_slice());
    assert_eq!(rt; served, Ok(9));
    Ok(())
}

/// The answers to the last lines. As many calls as an epoch may have were done before, so the next one is refused until a seal.
const LAST: &[u8] = b"{\"error\":[603]}\n{\"sealed\":0}\n{\"call\":0,\"epoch\":1,\"reply\":[2]}\n";

fn fills_an_epoch<R: Threads + Wait + Sync + Abort>(rt: &R, alloc: Global) -> Result<(), Fail> {
    let mut lines = Vec::new(alloc);
    lines.extend_from_slice(QUO)?;
    for _ in 0..4_097 {
        lines.extend_from_slice(CALL)?;
    }
    lines.extend_from_slice(SEAL)?;
    lines.extend_from_slice(CALL)?;
    let mut source = Bytes::new(lines.as_slice(), 65_536);
    let mut sink = Written::new(rt, alloc, 65_536, u32::MAX);
    let served = served(rt, alloc, &mut source, &mut sink)?;
    assert_eq!(rt; served, Ok(4_100));
    assert!(rt; sink.text.as_slice().ends_with(LAST));
    Ok(())
}

#[test]
fn a_full_epoch_is_sealed_by_a_line(rt: HostRuntime) -> Result<(), Fail> {
    fills_an_epoch(&rt, rt.alloc())
}
