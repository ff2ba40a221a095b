// What a core takes in: procedures, and calls of them.

ghost use Rattle.std.specs.Prelude.{◌≡◌, ◌≢◌, ◌+◌, ◌<◌, ◌≤◌, [], ◌∷◌, ◌++◌, length, IfOk, OnOk, OnErr, IfErr, None, Some};
ghost use Rattle.tl_procedures.specs.Names.{number_of, naming_refusal, AreFreeAfter, IsFirstRefused};
ghost use Rattle.tl_procedures.specs.declared.fault.NamingFault.TheVariants as naming;
ghost use Rattle.tl_core.specs.Cores.{places, room, open_calls};
ghost use Rattle.tl_core.specs.Entries.{admission_refusal, procedure_at, Admits, IsAdmissionFault};

use crate::call::{Call, OpenCall, Progress, begin, kept};
use crate::fault::CoreFault;
use crate::interleaving::{Core, MAX_OPEN};
use std::alloc::Global;
use std::sync::Arc;
use tl_history::MAX_CALLS;
use tl_procedures::{NamedProcedure, NamingFault};
use tl_tree_locking::Event;
use tl_verify::Proc;

impl Core {
    /// Adds a procedure under a name, and returns its number, from 0. Errors, the first that holds: 612 if the name isn't 1
    /// to 32 of ASCII letters, digits and `_`; 611 if a procedure has that name; 613 if there are 256 procedures. Otherwise
    /// 690 if memory is refused. A refusal changes nothing.
    pub fn add_proc(&mut self, alloc: Global, name: &str, proc: Proc) -> Result<u32, NamingFault>
        ensures number { IfOk result (λ n. n ≡ length self.old.seen.procedures) }
        ensures free { IfOk result (λ _. naming_refusal self.old.seen.procedures name.now ≡ None) }
        ensures last { OnOk result (self.new ≡ record self.old { seen = record self.old.seen { procedures = self.old.seen.procedures ++ record { name = name.now; code = proc } ∷ [] } }) }
        ensures fault { IfErr result (λ e. e ≢ naming.Memory → naming_refusal self.old.seen.procedures name.now ≡ Some e) }
        ensures memory { IfErr result (λ e. e ≡ naming.Memory → naming_refusal self.old.seen.procedures name.now ≡ None) }
        ensures err { OnErr result (self.new ≡ self.old) }
    {
        self.procedures.add(alloc, name, proc)
    }

    /// Adds these procedures in their order, or none of them. The fault of the first name that is refused: 612, 611 or 613; 690 if
    /// memory is refused.
    pub fn add_procs(
        &mut self,
        alloc: Global,
        procedures: Vec<NamedProcedure>,
    ) -> Result<(), NamingFault>
        ensures free { IfOk result (λ _. AreFreeAfter self.old.seen.procedures procedures.items) }
        ensures added { OnOk result (self.new ≡ record self.old { seen = record self.old.seen { procedures = self.old.seen.procedures ++ procedures.items } }) }
        ensures fault { IfErr result (λ e. e ≢ naming.Memory → IsFirstRefused self.old.seen.procedures procedures.items e) }
        ensures err { OnErr result (self.new ≡ self.old) }
    {
        self.procedures.add_all(alloc, procedures)
    }

    /// Admits a call of the procedure of that name with these arguments, and returns its number. Errors, the first that
    /// holds: 601 if no procedure has that name; 501 if there are more or fewer arguments than it takes; 603 if 4,096 calls
    /// were admitted; 604 if 64 are open; 605 if the history has no room for all events that the call may have. Otherwise
    /// 690 if memory is refused. A refusal changes nothing. Once the call is admitted, none of its steps takes memory.
    pub fn admit(&mut self, alloc: Global, name: &str, args: &[i64]) -> Result<u32, CoreFault>
        ensures ok { IfOk result (λ n. Admits self.old name.now args.now n self.new) }
        ensures fault { IfErr result (IsAdmissionFault self.old.seen name.now args.now) }
        ensures err { OnErr result (self.new ≡ self.old) }
    {
        let (procedure, places) = self.place_for(name, args)?;
        let proc = Arc::try_clone(self.procedures.get(procedure))?;
        let shape = Arc::try_clone(self.opening.shape())?;
        let call = self.calls.len();
        self.calls.reserve(1)?;
        let Ok(()) = self.history.reserve(alloc, places) else {
            return Err(CoreFault::Memory);
        };
        self.history.append(Event::Admit { call: call as u32 });
        let slot = self.slots.len();
        self.calls.push_reserved(Call {
            procedure,
            args: kept(&proc, args),
            progress: Progress::Open { slot },
        });
        self.slots.push_reserved(OpenCall {
            call: call as u32,
            places: places - 1,
            turn: begin(proc, shape, args),
        });
        Ok(call as u32)
    }

    // The number of the procedure, and how many events a call of it may have; or why the call isn't admitted.
    fn place_for(&self, name: &str, args: &[i64]) -> Result<(u32, usize), CoreFault>
        ensures refused { IfErr result (λ e. admission_refusal self.now.seen name.now args.now ≡ Some e) }
        ensures free { IfOk result (λ _. admission_refusal self.now.seen name.now args.now ≡ None) }
        ensures number { IfOk result (λ r. number_of self.now.seen.procedures name.now ≡ Some r.0) }
        ensures known { IfOk result (λ r. r.0 < length self.now.seen.procedures) }
        ensures arity { IfOk result (λ r. length args.now ≡ (procedure_at self.now.seen r.0).code.arity) }
        ensures places { IfOk result (λ r. r.1 ≡ places (procedure_at self.now.seen r.0).code.instrs (length self.now.seen.parents)) }
        ensures room { IfOk result (λ r. r.1 ≤ room self.now.seen) }
        ensures few { IfOk result (λ _. length self.now.seen.calls < MAX_CALLS) }
        ensures few_open { IfOk result (λ _. open_calls self.now.seen < MAX_OPEN) }
    {
        let Some(procedure) = self.procedures.number_of(name) else {
            return Err(CoreFault::NoProcedure);
        };
        let proc = self.procedures.get(procedure);
        if !proc.takes(args) {
            return Err(CoreFault::WrongArgs);
        }
        if self.calls.len() >= MAX_CALLS {
            return Err(CoreFault::TooManyCalls);
        }
        if self.slots.len() >= MAX_OPEN {
            return Err(CoreFault::TooManyOpen);
        }
        let nodes = self.opening.shape().node_count() as usize;
        let places = 2 * usize::from(proc.bounds().locks).min(nodes) + 2;
        if places > self.history.room() {
            return Err(CoreFault::HistoryFull);
        }
        Ok((procedure, places))
    }
}
