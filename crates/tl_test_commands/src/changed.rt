//! Files that differ from good ones in one byte, and prefixes of good ones.

use crate::audit::WHOLE;
use crate::texts::{ADD, ONE_NODE};
use std::alloc::Global;
use std::process::Abort;
use std::test::Fail;
use tl_audit::Silent;
use tl_commands::{CliFault, alone_cmd, asm_cmd, audit_cmd};
use tl_instr::{CodeFault, decode, encode};
use tl_sources::Source;
use tl_tree::USUAL_NODES;

/// How often each number was reported; 0 counts the files without a fault.
type Counts = [u16; 1000];

fn count(counts: &mut Counts, number: u64) {
    if let Some(counted) = counts.get_mut(number as usize) {
        *counted = counted.saturating_add(1);
    }
}

/// Numbers, and how often each must be reported.
type Expected = &'static [(u64, u16)];

fn are_counted(rt: &impl Abort, counts: &Counts, expected: Expected, place: usize) {
    for (number, times) in expected {
        let counted = counts.get(*number as usize).copied();
        assert_eq!(rt; counted, Some(*times), "{number} from byte {place} on");
    }
}

/// A copy of the bytes with `byte` at `place`.
fn changed(alloc: Global, bytes: &[u8], place: usize, byte: u8) -> Result<Vec<u8>, Fail> {
    let mut changed = Vec::from_slice(alloc, bytes)?;
    *changed.get_mut(place).ok_or("no such byte")? = byte;
    Ok(changed)
}

fn first_number(fault: CliFault) -> u64 {
    fault.numbers().as_slice().first().copied().unwrap_or(0)
}

// ---- containers

/// The container of `ADD`.
const CONTAINER: [u8; 64] = [
    0x54, 0x4C, 0x50, 0x31, 0x02, 0x00, 0x00, 0x07, //
    0x0C, 0x00, 0x00, 0x00, 0x00, 0x00, 0x00, 0x06, //
    0x10, 0x02, 0x00, 0x00, 0x00, 0x00, 0x00, 0x00, //
    0x03, 0x02, 0x02, 0x01, 0x00, 0x00, 0x00, 0x04, //
    0x11, 0x00, 0x00, 0x02, 0x00, 0x00, 0x00, 0x00, //
    0x13, 0x02, 0x00, 0x00, 0x00, 0x00, 0x00, 0x00, //
    0x0F, 0x00, 0x00, 0x00, 0x00, 0x00, 0x00, 0x00, //
    0x14, 0x00, 0x00, 0x00, 0x00, 0x00, 0x00, 0x00, //
];

/// The bytes of the code in a container.
fn spelled(alloc: Global, container: &[u8]) -> Result<Vec<u8>, CodeFault> {
    let code = decode(alloc, container)?;
    encode(alloc, &code)
}

/// The number of the first fault of a container, or of its run on these arguments if it can be read; 0 if there is none. A
/// container that can be read must be encoded to the same bytes again.
fn wrong_with(alloc: Global, container: &[u8]) -> Result<u64, Fail> {
    match spelled(alloc, container) {
        Ok(again) => {
            if again.as_slice() != container {
                return Err("read, and spelled otherwise".into());
            }
        }
        Err(fault) => return Ok(first_number(CliFault::Code(fault))),
    }
    let source = Source::Container(container);
    match alone_cmd(
        alloc,
        ONE_NODE.as_bytes(),
        source,
        None,
        "[0,3]",
        USUAL_NODES,
    ) {
        Ok(_) => Ok(0),
        Err(fault) => Ok(first_number(fault)),
    }
}

/// The results of the 255 other bytes in each place. Numbers below 300 are from reading. Those above are from the verifier, except
/// 501: the procedure doesn't take two arguments. So `(0, 15)` stands for fifteen containers that are read, accepted and run.
static CHANGED: [Expected; 64] = [
    // The head. The byte 0x32 in the fourth place makes it a container of the second version.
    &[(201, 255)],
    &[(201, 255)],
    &[(201, 255)],
    &[(0, 1), (201, 254)],
    &[(206, 247), (501, 8)],
    &[(206, 255)],
    &[(202, 3), (205, 252)],
    &[(202, 254), (205, 1)],
    // first n0 v0 else L6
    &[(0, 1), (203, 236), (204, 9), (301, 1), (405, 8)],
    &[(204, 248), (405, 7)],
    &[(0, 15), (204, 240)],
    &[(204, 255)],
    &[(204, 255)],
    &[(204, 255)],
    &[(204, 255)],
    &[(204, 248), (401, 1), (403, 1), (408, 5)],
    // get v2 n0 0
    &[(0, 4), (203, 236), (204, 4), (401, 8), (405, 3)],
    &[(0, 15), (204, 240)],
    &[(204, 248), (405, 7)],
    &[(0, 3), (204, 252)],
    &[(204, 255)],
    &[(204, 255)],
    &[(204, 255)],
    &[(204, 255)],
    // add v2 v2 v1 else L4
    &[(0, 3), (203, 236), (204, 15), (405, 1)],
    &[(0, 15), (204, 240)],
    &[(0, 15), (204, 240)],
    &[(0, 15), (204, 240)],
    &[(204, 255)],
    &[(204, 255)],
    &[(204, 255)],
    &[(0, 2), (204, 248), (401, 3), (403, 1), (408, 1)],
    // put n0 0 v2
    &[(0, 1), (203, 236), (204, 13), (401, 5)],
    &[(204, 248), (405, 7)],
    &[(0, 3), (204, 252)],
    &[(0, 15), (204, 240)],
    &[(204, 255)],
    &[(204, 255)],
    &[(204, 255)],
    &[(204, 255)],
    // emit v2
    &[(0, 4), (203, 236), (204, 4), (401, 8), (405, 3)],
    &[(0, 15), (204, 240)],
    &[(204, 255)],
    &[(204, 255)],
    &[(204, 255)],
    &[(204, 255)],
    &[(204, 255)],
    &[(204, 255)],
    // rel n0
    &[
        (203, 236),
        (302, 1),
        (304, 1),
        (401, 9),
        (406, 1),
        (407, 1),
        (408, 6),
    ],
    &[(204, 248), (405, 7)],
    &[(204, 255)],
    &[(204, 255)],
    &[(204, 255)],
    &[(204, 255)],
    &[(204, 255)],
    &[(204, 255)],
    // ret
    &[(203, 236), (302, 1), (304, 1), (401, 9), (403, 3), (405, 5)],
    &[(204, 255)],
    &[(204, 255)],
    &[(204, 255)],
    &[(204, 255)],
    &[(204, 255)],
    &[(204, 255)],
    &[(204, 255)],
];

#[test]
fn a_container_has_its_bytes_and_no_fewer(rt: HostRuntime) -> Result<(), Fail> {
    let alloc = rt.alloc();
    let (_, container) = asm_cmd(alloc, ADD.as_bytes())?;
    assert_eq!(rt; container.as_slice(), CONTAINER.as_slice());
    for length in 0..CONTAINER.len() {
        let beginning = CONTAINER.get(..length).ok_or("too long")?;
        let expected = if length < 4 { 201 } else { 202 };
        assert_eq!(rt; wrong_with(alloc, beginning)?, expected, "{length} bytes");
    }
    Ok(())
}

#[test]
fn each_byte_of_a_container_is_read(rt: HostRuntime) -> Result<(), Fail> {
    let alloc = rt.alloc();
    for (place, expected) in CHANGED.iter().enumerate() {
        let mut counts = [0; 1000];
        for byte in 0..=255 {
            if CONTAINER.get(place) != Some(&byte) {
                let container = changed(alloc, &CONTAINER, place, byte)?;
                count(&mut counts, wrong_with(alloc, &container)?);
            }
        }
        are_counted(&rt, &counts, expected, place);
    }
    Ok(())
}

// ---- trails

/// The results of a trail's file with each byte replaced by 0, replaced by 255, and with its lowest bit flipped. None is clean.
static TRAILS: [(u64, u16); 16] = [
    (103, 1),
    (104, 1),
    (251, 212),
    (252, 20),
    (405, 11),
    (406, 2),
    (408, 1),
    (501, 3),
    (601, 26),
    (701, 1974),
    (711, 16),
    (712, 2),
    (713, 45),
    (714, 30),
    (716, 13),
    (717, 10),
];

/// The number of a trail's first fault.
fn wrong_in(alloc: Global, trail: &[u8]) -> u64 {
    match audit_cmd(alloc, trail, &mut Silent, USUAL_NODES) {
        Ok(_) => 0,
        Err(fault) => first_number(fault),
    }
}

#[test]
fn no_beginning_of_a_trail_is_one(rt: HostRuntime) -> Result<(), Fail> {
    let alloc = rt.alloc();
    let trail = WHOLE.concat(alloc)?;
    let trail = trail.as_bytes();
    for length in 0..trail.len() {
        let beginning = trail.get(..length).ok_or("too long")?;
        assert_eq!(rt; wrong_in(alloc, beginning), 701, "{length} bytes");
    }
    Ok(())
}

#[test]
fn each_byte_of_a_trail_is_read(rt: HostRuntime) -> Result<(), Fail> {
    let alloc = rt.alloc();
    let file = [WHOLE.concat(alloc)?.as_str(), "\n"].concat(alloc)?;
    let file = file.as_bytes();
    let mut counts = [0; 1000];
    for (place, byte) in file.iter().enumerate() {
        for other in [0, 255, *byte ^ 1] {
            let trail = changed(alloc, file, place, other)?;
            count(&mut counts, wrong_in(alloc, &trail));
        }
    }
    are_counted(&rt, &counts, &TRAILS, 0);
    Ok(())
}
