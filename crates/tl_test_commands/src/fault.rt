//! The numbers, the exit statuses and the texts of the commands' faults.

use std::test::Fail;
use tl_asm::AsmFault;
use tl_audit::{AuditFault, ChainFault, TrailFault};
use tl_budget::NestFault;
use tl_commands::CliFault;
use tl_core::CoreFault;
use tl_instr::CodeFault;
use tl_table::TableFault;
use tl_tree::TreeFault;
use tl_verify::VerifyFault;
use tl_workers::Refusal;

/// Each fault, and its numbers, exit status and text.
const FAULTS: [(CliFault, &str); 36] = [
    (CliFault::Unreadable, "[31] 3: a file can't be read"),
    (CliFault::Unwritable, "[32] 3: a file can't be written"),
    (CliFault::NoPort, "[33] 3: a port can't be opened"),
    (CliFault::NotUtf8, "[255] 1: the text is not UTF-8"),
    (CliFault::NotScript, "[731] 1: the text is not a script"),
    (
        CliFault::NotArgs,
        "[732] 1: the arguments are not a list of numbers",
    ),
    (
        CliFault::WrongArgs,
        "[501] 1: another number of arguments than the procedure takes",
    ),
    (CliFault::Memory, "[990] 4: out of memory"),
    (
        CliFault::NotClosed,
        "[831] 1: the calls are not those that were asked for",
    ),
    (
        CliFault::Replaced,
        "[720] 1: a procedure has another code than in the file before",
    ),
    (
        CliFault::Engine(Refusal::Memory),
        "[990] 4: the calls: out of memory",
    ),
    (
        CliFault::Engine(Refusal::Table(TableFault::Memory)),
        "[890] 4: the calls: out of memory",
    ),
    (
        CliFault::Engine(Refusal::Table(TableFault::Core(CoreFault::Memory))),
        "[690] 4: the calls: out of memory",
    ),
    (
        CliFault::Engine(Refusal::Table(TableFault::TooManySessions)),
        "[821] 1: the calls: too many sessions",
    ),
    (
        CliFault::Tree(TreeFault::Memory),
        "[190] 4: the tree: out of memory",
    ),
    (
        CliFault::Asm(AsmFault::Memory),
        "[290] 4: the text: out of memory",
    ),
    (
        CliFault::Code(CodeFault::Memory),
        "[290] 4: the procedure: out of memory",
    ),
    (
        CliFault::Verify(VerifyFault::Memory),
        "[490] 4: the procedure: out of memory",
    ),
    (
        CliFault::Core(CoreFault::Memory),
        "[690] 4: the calls: out of memory",
    ),
    (
        CliFault::Trail(TrailFault::Memory),
        "[790] 4: the trail: out of memory",
    ),
    (
        CliFault::Audit(AuditFault::Memory),
        "[790] 4: the trail: out of memory",
    ),
    (
        CliFault::Chain(ChainFault::Memory),
        "[790] 4: the chain: out of memory",
    ),
    (
        CliFault::Chain(ChainFault::Broken { epoch: 3 }),
        "[718, 3] 1: the chain: trail 3 doesn't take over where the one before it ends",
    ),
    (
        CliFault::Chain(ChainFault::InEpoch {
            epoch: 3,
            fault: AuditFault::WrongReply { call: 5 },
        }),
        "[719, 3, 717, 5] 1: the chain: trail 3: the reply of call 5 isn't what its procedure answers",
    ),
    (
        CliFault::Engine(Refusal::Table(TableFault::TooManyEpochs)),
        "[808] 1: the calls: too many epochs",
    ),
    (
        CliFault::Engine(Refusal::Table(TableFault::Core(CoreFault::NotAtRest { call: 5 }))),
        "[606, 5] 1: the calls: call 5 isn't done",
    ),
    (
        CliFault::Audit(AuditFault::WrongReply { call: 5 }),
        "[717, 5] 1: the trail: the reply of call 5 isn't what its procedure answers",
    ),
    (
        CliFault::Verify(VerifyFault::OffEnd(7)),
        "[403, 7] 1: the procedure: instruction 7: control goes past the end of the code",
    ),
    (
        CliFault::Verify(VerifyFault::NotHeld(7, 2)),
        "[405, 7, 2] 1: the procedure: instruction 7: register n2 holds no node",
    ),
    (
        CliFault::Verify(VerifyFault::Nest(NestFault::LoopOpen(7))),
        "[301, 7] 1: the procedure: instruction 7: the loop has no end",
    ),
    (
        CliFault::Verify(VerifyFault::Nest(NestFault::EndAlone(7))),
        "[302, 7] 1: the procedure: instruction 7: an end without a loop",
    ),
    (
        CliFault::Verify(VerifyFault::Nest(NestFault::TooDeep(7))),
        "[303, 7] 1: the procedure: instruction 7: more than four loops in one another",
    ),
    (
        CliFault::Verify(VerifyFault::Nest(NestFault::ZeroCount(7))),
        "[304, 7] 1: the procedure: instruction 7: a loop of no turns",
    ),
    (
        CliFault::Verify(VerifyFault::Nest(NestFault::StepsOver)),
        "[305] 1: the procedure: more than 1,000,000 steps",
    ),
    (
        CliFault::Verify(VerifyFault::Nest(NestFault::LocksOver)),
        "[306] 1: the procedure: more than 4,096 locks",
    ),
    (
        CliFault::Verify(VerifyFault::Nest(NestFault::EmitsOver)),
        "[307] 1: the procedure: more than 32 emitted values",
    ),
];

#[test]
fn a_fault_has_its_numbers_its_status_and_its_text(rt: HostRuntime) -> Result<(), Fail> {
    for (fault, expected) in FAULTS {
        let numbers = fault.numbers();
        let numbers = numbers.as_slice();
        let status = fault.status();
        let text = format!(in rt.alloc(); "{numbers:?} {status}: {fault}")?;
        assert_eq!(rt; text.as_str(), expected);
    }
    Ok(())
}
