// The command `audit`.

ghost use Rattle.std.specs.Prelude.{◌≡◌, ◌≢◌, ◌<◌, ◌≤◌, ◌↔◌, [], ◌∷◌, ◌++◌, length, map, string_bytes, option_copied, Option, Some, IsOk, IfOk, OnOk, IfErr};
ghost use Rattle.serde_json.specs.Written.{compact_text};
ghost use Rattle.tl_json.specs.Lists.{order_data, orders_data};
ghost use Rattle.tl_table.specs.Chains.{calls_in};
ghost use Rattle.tl_trail.specs.Trails.{TrailValue};
ghost use Rattle.tl_trail.specs.declared.chain.TheConstants.{MAX_TRAILS};
ghost use Rattle.tl_audit.specs.declared.chain.ChainFault.{ChainFault};
ghost use Rattle.tl_audit.specs.Chains.{Before, AfterTrail, AreSerial, CleanAfter, IsFirstAfter, after_file, last_after, order_of};
ghost use Rattle.tl_commands.specs.Audit.{begins_with_list, Audits, AuditsTrail, AuditsChain, IsFirstAuditFault, IsFirstTrailAuditFault, IsFirstChainAuditFault};
ghost use Rattle.tl_commands.specs.declared.fault.CliFault.TheVariants.{Replaced};
ghost use Rattle.tl_commands.specs.Faults.{status_of};
ghost use Rattle.tl_commands.specs.NextAudit.{AreTrailsOf, AuditsNext, IsFirstNextFault, IsTextFault, fault_of_file};

use crate::closing::all_orders_to_value;
use crate::fault::CliFault;
use std::alloc::{AllocError, Global};
use tl_audit::{
    ChainFault, Progress, audit_chain_after, audit_chain_with, audit_with, replaced_names,
};
use tl_json::order_to_value;
use tl_lines::line_of;
use tl_serial_order::Order;
use tl_trail::{Trail, TrailFault, read_chain, read_trail};

// Whether a text is a list, provided it is JSON: whether it begins with a bracket, after any white space.
pub(crate) fn begins_with_list(text: &str) -> bool
    ensures { result ≡ begins_with_list text.now }
{
    for byte in text.as_bytes() {
        match byte {
            b' ' | b'\t' | b'\n' | b'\r' => {}
            byte => return *byte == b'[',
        }
    }
    false
}

// The line for an order.
fn order_line(alloc: Global, order: &Order) -> Result<String, AllocError>
    ensures { IfOk result (λ s. string_bytes s ≡ compact_text (order_data order.now.calls) ++ 10 ∷ []) }
{
    let order = order_to_value(alloc, order.calls())?;
    line_of(alloc, &order)
}

// The line for the orders of a chain.
fn orders_line(alloc: Global, orders: &[Order]) -> Result<String, AllocError>
    ensures { IfOk result (λ s. string_bytes s ≡ compact_text (orders_data (map calls_in orders.now)) ++ 10 ∷ []) }
{
    let orders = all_orders_to_value(alloc, orders)?;
    line_of(alloc, &orders)
}

// The order of the calls of a clean trail.
fn audit_trail_text<P: Progress>(
    alloc: Global,
    text: &str,
    progress: &mut P,
    limit: u32,
) -> Result<String, CliFault>
    ensures printed { IfOk result (λ s. AuditsTrail limit text.now (string_bytes s)) }
    ensures fault { IfErr result (λ e. IsFirstTrailAuditFault limit text.now e) }
{
    let trail = match read_trail(alloc, text, limit) {
        Ok(trail) => trail,
        Err(fault) => return Err(CliFault::Trail(fault)),
    };
    match audit_with(alloc, &trail, progress) {
        Ok(order) => Ok(order_line(alloc, &order)?),
        Err(fault) => Err(CliFault::Audit(fault)),
    }
}

// The orders of the calls of a clean chain.
fn audit_chain_text<P: Progress>(
    alloc: Global,
    text: &str,
    progress: &mut P,
    limit: u32,
) -> Result<String, CliFault>
    ensures printed { IfOk result (λ s. AuditsChain limit text.now (string_bytes s)) }
    ensures fault { IfErr result (λ e. IsFirstChainAuditFault limit text.now e) }
{
    let trails = match read_chain(alloc, text, limit) {
        Ok(trails) => trails,
        Err(fault) => return Err(CliFault::Trail(fault)),
    };
    match audit_chain_with(alloc, &trails, progress) {
        Ok(orders) => Ok(orders_line(alloc, &orders)?),
        Err(fault) => Err(CliFault::Chain(fault)),
    }
}

/// The order of the calls of a clean trail, or the order of each trail of a clean chain, as the line to print. A file that
/// is a list is a chain; any other file is a trail. Takes the bytes of the file, and a receiver for the audit's progress.
///
/// The first fault, in this order: 701 (also if the file isn't UTF-8); 101 to 105 of its tree, which may have `limit` nodes; for each procedure 251 to
/// 254, 301 to 307, 401 to 409, 612, 611, 613; 603; for each call 601, 501; 701 again, if an event or a final record has no
/// place; and then for the calls themselves 711 to 713 at the first event, 715, 714 or 717 at the least call, and 716. The
/// trails of a chain are read first, one after another. Then, for each, 718 if it doesn't take over where the one before it
/// ends, or 719 with what is wrong with it. If memory was refused, 790 or 990.
pub fn audit_cmd<P: Progress>(
    alloc: Global,
    file: &[u8],
    progress: &mut P,
    limit: u32,
) -> Result<String, CliFault>
    ensures printed { IfOk result (λ s. Audits limit file.now (string_bytes s)) }
    ensures fault { IfErr result (λ e. IsFirstAuditFault limit file.now e) }
{
    let Ok(text) = std::str::from_utf8(file) else {
        return Err(CliFault::Trail(TrailFault::NotTrail));
    };
    if begins_with_list(text) {
        audit_chain_text(alloc, text, progress, limit)
    } else {
        audit_trail_text(alloc, text, progress, limit)
    }
}

// The trails of a file: those of a chain if it is a list, else the only one.
pub(crate) fn trails_of_text(
    alloc: Global,
    text: &str,
    is_list: bool,
    limit: u32,
) -> Result<Vec<Trail>, CliFault>
    ensures ok { IfOk result (λ ts. AreTrailsOf limit is_list text.now ts.items) }
    ensures some { IfOk result (λ ts. 0 < length ts.items) }
    ensures few { IfOk result (λ ts. length ts.items ≤ MAX_TRAILS) }
    ensures fault { IfErr result (λ e. status_of e ≢ 4 → (f : TrailFault) × (e ≡ CliFault.Trail f) × IsTextFault limit is_list text.now f) }
{
    if is_list {
        return match read_chain(alloc, text, limit) {
            Ok(trails) => Ok(trails),
            Err(fault) => Err(CliFault::Trail(fault)),
        };
    }
    let mut trails = Vec::with_capacity(alloc, 1)?;
    match read_trail(alloc, text, limit) {
        Ok(trail) => {
            trails.push_reserved(trail);
            Ok(trails)
        }
        Err(fault) => Err(CliFault::Trail(fault)),
    }
}

// The fault of a file's trails. Of a file that isn't a list it is told as that of its only trail.
fn fault_of_file(is_list: bool, fault: ChainFault) -> CliFault
    ensures { result ≡ fault_of_file is_list fault }
{
    match fault {
        ChainFault::InEpoch { epoch: _, fault } if !is_list => CliFault::Audit(fault),
        fault => CliFault::Chain(fault),
    }
}

// The line of the orders of these trails, the first of which has to take over from the one before.
fn orders_after<P: Progress>(
    alloc: Global,
    before: Option<&Trail>,
    trails: &[Trail],
    is_list: bool,
    progress: &mut P,
) -> Result<String, CliFault>
    requires { length trails.now ≤ MAX_TRAILS }
    ensures clean { OnOk result (CleanAfter (after_file (option_copied before.entry)) trails.now) }
    ensures serial { OnOk result (AreSerial trails.now (map order_of trails.now)) }
    ensures line { IfOk result (λ s. string_bytes s ≡ compact_text (orders_data (map order_of trails.now)) ++ 10 ∷ []) }
    ensures fault { IfErr result (λ e. status_of e ≢ 4 → (f : ChainFault) × (e ≡ fault_of_file is_list f) × IsFirstAfter 0 (after_file (option_copied before.entry)) trails.now f) }
{
    match audit_chain_after(alloc, before, trails, progress) {
        Ok(orders) => Ok(orders_line(alloc, &orders)?),
        Err(fault) => Err(fault_of_file(is_list, fault)),
    }
}

// The last of these trails.
fn last_of(trails: Vec<Trail>) -> Trail
    requires { 0 < length trails.items }
    ensures { (before : Before) → last_after before trails.items ≡ AfterTrail result }
{
    let mut trails = trails;
    let Some(last) = trails.pop() else {
        // There is at least one.
        unreachable!()
    };
    last
}

/// What a file's audit comes to where it is one of several.
#[derive(Drop)]
pub struct AuditedFile {
    /// The orders of its trails, as a line.
    pub line: String,
    /// Its last trail.
    pub last: Trail,
    /// The names of the procedures that have other codes than in the file before.
    pub replaced: Vec<String>,
}

impl AuditedFile {
    /// 720 if a procedure has another code than in the file before.
    pub fn check_procedures(&self) -> Result<(), CliFault>
        ensures same { IsOk result ↔ (self.now.replaced.items ≡ []) }
        ensures fault { IfErr result (λ e. e ≡ Replaced) }
    {
        if self.replaced.is_empty() {
            Ok(())
        } else {
            Err(CliFault::Replaced)
        }
    }
}

/// One file more of several that belong together: the line of the orders of its trails, its last trail, from which the next file has to
/// take over, and which procedures were replaced. `before` is the last trail of the file before, if there is one. So one file and one
/// trail are in memory at a time. Between files nodes may have been appended to the tree, with zeros as their records.
///
/// The first fault, as of `audit_cmd`, but 718 with trail 0 if the file doesn't take over where the one before it ends.
pub fn audit_next_cmd<P: Progress>(
    alloc: Global,
    file: &[u8],
    before: Option<&Trail>,
    progress: &mut P,
    limit: u32,
) -> Result<AuditedFile, CliFault>
    ensures printed { IfOk result (λ r. AuditsNext limit (option_copied before.entry) file.now (string_bytes r.line) r.last (map string_bytes r.replaced.items)) }
    ensures fault { IfErr result (λ e. IsFirstNextFault limit (option_copied before.entry) file.now e) }
{
    let Ok(text) = std::str::from_utf8(file) else {
        return Err(CliFault::Trail(TrailFault::NotTrail));
    };
    let is_list = begins_with_list(text);
    let trails = trails_of_text(alloc, text, is_list, limit)?;
    let line = orders_after(alloc, before, &trails, is_list, progress)?;
    let replaced = replaced_names(alloc, before, &trails)?;
    Ok(AuditedFile {
        line,
        last: last_of(trails),
        replaced,
    })
}
