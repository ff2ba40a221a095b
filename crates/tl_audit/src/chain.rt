// Whether a chain of trails is clean.

ghost use Rattle.std.specs.Prelude.{string_bytes, ◌≡◌, ◌≢◌, ◌<◌, ◌≤◌, ◌↔◌, ℕ, List, ◌++◌, length, map, replicate, option_copied, slice_get, Some, IsTrue, IfOk, IfErr};
ghost use Rattle.tl_trail.specs.Trails.{IsTrail};
ghost use Rattle.tl_trail.specs.Clean.{Clean};
ghost use Rattle.tl_audit.specs.declared.chain.ChainFault.TheVariants as chain;
ghost use Rattle.tl_audit.specs.declared.fault.AuditFault.TheVariants as audit;
ghost use Rattle.tl_trail.specs.declared.chain.TheConstants.{MAX_TRAILS};
ghost use Rattle.tl_audit.specs.Chains.{TakesOver, TakesOverGrown, TakesOverFrom, after_file, zero_record, CleanAfter, IsCleanChain, IsFirstAfter, IsFirstChainFault, AreSerial, IsFaultAt, before_at, order_of, calls_in, AreReplacedNames};
ghost use Rattle.tl_audit.specs.Faults.{chain_numbers_of};

use crate::auditing::audit_with;
use crate::fault::AuditFault;
use crate::progress::{Progress, Silent};
use arrayvec::ArrayVec;
use std::alloc::{AllocError, Global};
use thiserror::Error;
use tl_procedures::Procedures;
use tl_serial_order::Order;
use tl_trail::{MAX_TRAILS, Trail};
use tl_tree::{FIELD_COUNT, Record, Shape};

/// What is wrong with a chain of trails.
#[derive(Clone, Copy, Debug, PartialEq, Eq, Error)]
pub enum ChainFault {
    /// 718 and the trail, numbered from 0: it doesn't open with the tree that the one before it ends with,
    /// or its procedures don't begin with all procedures of that one.
    #[error("trail {epoch} doesn't take over where the one before it ends")]
    Broken { epoch: u32 },
    /// 719, the trail, numbered from 0, and the numbers of its fault.
    #[error("trail {epoch}: {fault}")]
    InEpoch { epoch: u32, fault: AuditFault },
    /// 790: memory was refused.
    #[error("out of memory")]
    Memory,
}

impl ChainFault {
    /// The fault's number, then the trail's, then the numbers of the trail's fault.
    pub fn numbers(&self) -> ArrayVec<u64, 5>
        ensures { result.items ≡ chain_numbers_of self.now }
    {
        let mut numbers = ArrayVec::new();
        match self {
            ChainFault::Broken { epoch } => {
                numbers.push(718);
                numbers.push(u64::from(*epoch));
            }
            ChainFault::InEpoch { epoch, fault } => {
                numbers.push(719);
                numbers.push(u64::from(*epoch));
                let Ok(()) = numbers.try_extend_from_slice(fault.numbers().as_slice()) else {
                    unreachable!()
                };
            }
            ChainFault::Memory => numbers.push(790),
        }
        numbers
    }
}

impl From<AllocError> for ChainFault {
    ghost from_gives = { λ _ e. e ≡ chain.Memory };

    fn from(_refused: AllocError) -> ChainFault {
        ChainFault::Memory
    }
}

/// Whether a chain of trails is clean: the order of each trail, or the first fault. By rising trail number: 718 if a trail
/// doesn't open with the tree that the one before it ends with, or its procedures don't begin with all procedures of that
/// one; then 719 with the fault of the trail. 790 if memory is refused.
pub fn audit_chain(alloc: Global, trails: &[Trail]) -> Result<Vec<Order>, ChainFault>
    requires some { 0 < length trails.now }
    requires few { length trails.now ≤ MAX_TRAILS }
    ensures clean { IfOk result (λ _. IsCleanChain trails.now) }
    ensures orders { IfOk result (λ os. map calls_in os.items ≡ map order_of trails.now) }
    ensures fault { IfErr result (λ f. f ≢ chain.Memory → IsFirstChainFault trails.now f) }
    ensures only { IsCleanChain trails.now → IfErr result (λ f. f ≡ chain.Memory) }
    ensures serial { IfOk result (λ os. AreSerial trails.now (map calls_in os.items)) }
{
    audit_chain_with(alloc, trails, &mut Silent)
}

/// The same, reporting how far it is, counted in events of all trails.
pub fn audit_chain_with<P: Progress>(
    alloc: Global,
    trails: &[Trail],
    progress: &mut P,
) -> Result<Vec<Order>, ChainFault>
    requires some { 0 < length trails.now }
    requires few { length trails.now ≤ MAX_TRAILS }
    ensures clean { IfOk result (λ _. IsCleanChain trails.now) }
    ensures orders { IfOk result (λ os. map calls_in os.items ≡ map order_of trails.now) }
    ensures fault { IfErr result (λ f. f ≢ chain.Memory → IsFirstChainFault trails.now f) }
    ensures only { IsCleanChain trails.now → IfErr result (λ f. f ≡ chain.Memory) }
    ensures serial { IfOk result (λ os. AreSerial trails.now (map calls_in os.items)) }
{
    audit_chain_after(alloc, None, trails, progress)
}

/// The same of the chain of a file that comes after another file: its first trail must take over from the trail that the other one ends
/// with, if one is given. Between files nodes may have been appended to the tree, with zeros as their records, and procedures may have got
/// other codes under their names. 718 with trail 0 if it doesn't take over.
pub fn audit_chain_after<P: Progress>(
    alloc: Global,
    before: Option<&Trail>,
    trails: &[Trail],
    progress: &mut P,
) -> Result<Vec<Order>, ChainFault>
    requires { length trails.now ≤ MAX_TRAILS }
    ensures clean { IfOk result (λ _. CleanAfter (after_file (option_copied before.entry)) trails.now) }
    ensures orders { IfOk result (λ os. map calls_in os.items ≡ map order_of trails.now) }
    ensures fault { IfErr result (λ f. f ≢ chain.Memory → IsFirstAfter 0 (after_file (option_copied before.entry)) trails.now f) }
    ensures only { CleanAfter (after_file (option_copied before.entry)) trails.now → IfErr result (λ f. f ≡ chain.Memory) }
    ensures serial { IfOk result (λ os. AreSerial trails.now (map calls_in os.items)) }
{
    let mut orders = Vec::with_capacity(alloc, trails.len())?;
    let mut along = Along::new(progress, trails);
    for number in 0..trails.len() {
        let trail = &trails[number];
        match next_order(alloc, before, trails, number, trail, &mut along) {
            Ok(order) => orders.push_reserved(order),
            Err(fault) => return Err(fault),
        }
    }
    Ok(orders)
}

/// The names of the procedures that have other codes in a clean chain than in the trail before it, with which another file ends.
#[tactic(auto, using(crate::proofs::FileLemmas::keeps_count))]
pub fn replaced_names(
    alloc: Global,
    before: Option<&Trail>,
    trails: &[Trail],
) -> Result<Vec<String>, AllocError>
    requires { CleanAfter (after_file (option_copied before)) trails.now }
    ensures { IfOk result (λ v. AreReplacedNames (option_copied before.entry) trails.now (map string_bytes v.items)) }
{
    let (Some(before), Some(first)) = (before, trails.first()) else {
        return Ok(Vec::new(alloc));
    };
    first.procedures().others(alloc, before.procedures())
}

/// How far the audit of a chain is: where to report it, how many events the trails before this one have, and how many all
/// have.
#[derive(Drop)]
struct Along<'p, P> {
    progress: &'p mut P,
    before: usize,
    all: usize,
}

impl<'p, P: Progress> Along<'p, P> {
    fn new(progress: &'p mut P, trails: &[Trail]) -> Along<'p, P> {
        let mut all: usize = 0;
        for trail in trails {
            all = all.saturating_add(trail.history().len());
        }
        Along {
            progress,
            before: 0,
            all,
        }
    }
}

impl<P: Progress> Progress for Along<'_, P> {
    fn seen(&mut self, events: usize, _all: usize) {
        self.progress
            .seen(self.before.saturating_add(events), self.all);
    }
}

// Whether the trail of that number takes over from what comes before it: for the first of the chain that is another file, if there is one.
fn takes_over_at(before: Option<&Trail>, trails: &[Trail], number: usize, trail: &Trail) -> bool
    requires { slice_get trails.now number ≡ Some trail.now }
    ensures { IsTrue result ↔ TakesOverFrom (before_at (after_file (option_copied before.entry)) trails.now number) trail.now }
{
    if number == 0 {
        return takes_over_from_file(before, trail);
    }
    takes_over(&trails[number - 1], trail)
}

// The order of the trail of that number, which must take over from what comes before it.
fn next_order<P: Progress>(
    alloc: Global,
    before: Option<&Trail>,
    trails: &[Trail],
    number: usize,
    trail: &Trail,
    along: &mut Along<'_, P>,
) -> Result<Order, ChainFault>
    requires number { number < MAX_TRAILS }
    requires trail { slice_get trails.now number ≡ Some trail.now }
    ensures ok { IfOk result (λ o. TakesOverFrom (before_at (after_file (option_copied before.entry)) trails.now number) trail.now × Clean trail.now × IsTrail trail.now × (o.calls ≡ order_of trail.now)) }
    ensures fault { IfErr result (λ f. f ≢ chain.Memory → IsFaultAt number (before_at (after_file (option_copied before.entry)) trails.now number) trail.now f) }
{
    if !takes_over_at(before, trails, number, trail) {
        return Err(ChainFault::Broken {
            epoch: number as u32,
        });
    }
    // What holds for every trail.
    let _fact = trail.opening();
    match audit_with(alloc, trail, along) {
        Ok(order) => {
            along.before = along.before.saturating_add(trail.history().len());
            Ok(order)
        }
        Err(fault) => Err(in_epoch(number as u32, fault)),
    }
}

// The fault of the trail with that number, as a fault of the chain.
fn in_epoch(epoch: u32, fault: AuditFault) -> ChainFault
    ensures memory { fault ≡ audit.Memory → result ≡ chain.Memory }
    ensures other { fault ≢ audit.Memory → result ≡ chain.InEpoch epoch fault }
{
    match fault {
        AuditFault::Memory => ChainFault::Memory,
        fault => ChainFault::InEpoch { epoch, fault },
    }
}

// Whether the first trail of a file takes over from the trail that the file before ends with, if there is one.
fn takes_over_from_file(before: Option<&Trail>, trail: &Trail) -> bool
    ensures { IsTrue result ↔ TakesOverFrom (after_file (option_copied before.entry)) trail.now }
{
    match before {
        Some(before) => takes_over_grown(before, trail),
        None => true,
    }
}

// Whether the second trail opens with the tree that the first ends with, and its procedures begin with those of the first.
fn takes_over(before: &Trail, trail: &Trail) -> bool
    ensures { IsTrue result ↔ TakesOver before.now trail.now }
{
    if !trail.opening().shape().is(before.opening().shape()) {
        return false;
    }
    if !are_same(trail.opening().records(), before.ends()) {
        return false;
    }
    trail.procedures().begin_with(before.procedures())
}

// The same where nodes may have been appended to the tree in between, with zeros as their records, and procedures replaced.
fn takes_over_grown(before: &Trail, trail: &Trail) -> bool
    ensures { IsTrue result ↔ TakesOverGrown before.now trail.now }
{
    if !begins_with(trail.opening().shape(), before.opening().shape()) {
        return false;
    }
    if !are_followed_by_zeros(before.ends(), trail.opening().records()) {
        return false;
    }
    trail.procedures().keep_names(before.procedures())
}

// Whether the shape has the nodes of the other one first, with the same parents.
fn begins_with(shape: &Shape, first: &Shape) -> bool
    ensures { IsTrue result ↔ ((added : List ℕ) × (shape.now ≡ first.now ++ added)) }
{
    if shape.node_count() < first.node_count() {
        return false;
    }
    for node in 0..first.node_count() {
        if shape.parent(node) != first.parent(node) {
            return false;
        }
    }
    true
}

// Whether all of these records are the first ones, and those behind them have zeros only.
fn are_followed_by_zeros(first: &[Record], records: &[Record]) -> bool
    ensures { IsTrue result ↔ ((n : ℕ) × (records.now ≡ first.now ++ replicate n zero_record)) }
{
    if records.len() < first.len() {
        return false;
    }
    let count = first.len();
    are_same(&records[..count], first) && are_zeros(&records[count..])
}

// Whether the records have zeros only.
fn are_zeros(records: &[Record]) -> bool
    ensures { IsTrue result ↔ (records.now ≡ replicate (length records.now) zero_record) }
{
    for record in records {
        if !is_zero(record) {
            return false;
        }
    }
    true
}

// Whether the record has zeros only.
fn is_zero(record: &Record) -> bool
    ensures { IsTrue result ↔ (record.now ≡ zero_record) }
{
    *record == [0; FIELD_COUNT]
}

// Whether the records are the same.
fn are_same(records: &[Record], others: &[Record]) -> bool
    ensures { IsTrue result ↔ (records.now ≡ others.now) }
{
    records == others
}
