// The generations of a server that lasts: its engines are closed, what they did is written, and the next ones are opened.

ghost use Rattle.std.specs.Prelude.{IsTrue, OnOk};

use crate::trail_file::TrailFile;
use crate::{
    CliFault, Generation, close_generation, keep_generation, next_engine, take_generation,
};
use std::alloc::Global;
use std::rt::Files;
use std::sync::Wait;
use tl_file_journal::{Comparer, Difference};
use tl_generations::{GrowthFault, Legacy, Succession};
use tl_procedures::{Procedures, ReplacingFault};
use tl_server::Keeper;
use tl_tree::Tree;
use tl_workers::{Engine, Session};

/// Where the trails of the generations go.
#[derive(Drop)]
pub enum Trails {
    Nowhere,
    /// Into this folder, a file for each generation. One that is there already isn't replaced.
    Folder(String),
}

/// What a server's engines did, once all are closed.
pub trait Finish {
    /// What engines do is compared from now on with what a store has of it.
    fn compare_by(&mut self, comparer: Option<Comparer>);

    /// Compares what the last engine did with what the store has of it, and lets go of who compares.
    fn compare_last(&mut self, alloc: Global);

    /// Takes and writes what the last engine did, if that isn't done yet. Answers how many engines were closed. 831 if an engine
    /// didn't close, or didn't begin with what the one before left.
    fn finish(&mut self, alloc: Global) -> Result<u64, CliFault>;

    /// The tree that the last engine left.
    fn tree(&self) -> &Tree;

    /// Why a file wasn't written, of the first one that wasn't.
    fn unwritten(&self) -> Option<CliFault>;
}

/// Closes the engines of a server, writes what each did, and opens the next.
#[derive(Drop)]
pub struct Archive<R> {
    rt: R,
    trails: Trails,
    succession: Succession,
    // How many nodes the tree may have.
    nodes: u32,
    // How many engines were closed.
    count: u64,
    // What the last one did, until it is written; and whether the succession has taken it.
    closed: Option<Generation>,
    is_taken: bool,
    // Why the server can't go on, if it can't.
    broken: Option<CliFault>,
    // Why a file wasn't written, of the first one that wasn't.
    unwritten: Option<CliFault>,
    // Who compares what the engines did with what a store has.
    comparer: Option<Comparer>,
}

// Says to people which epoch of a store isn't what was run, or can't be compared.
fn show_difference(rt: &impl Eprint, difference: Difference) {
    let Difference { epoch, fault } = difference;
    let _shown = eprintln!(rt;
        "treedb: epoch {epoch} of the store isn't what was run, or can't be compared: {fault}"
    );
}

impl<R: Files + Eprint> Archive<R> {
    pub fn new(rt: R, trails: Trails, succession: Succession, nodes: u32) -> Archive<R> {
        Archive {
            rt,
            trails,
            succession,
            nodes,
            count: 0,
            closed: None,
            is_taken: false,
            broken: None,
            unwritten: None,
            comparer: None,
        }
    }

    // Takes what the last engine did into the succession, if that isn't done yet. If memory is refused it may be tried again.
    fn take(&mut self, alloc: Global) -> Result<(), CliFault>
        ensures { OnOk result (IsTrue self.new.is_taken) }
    {
        if self.is_taken {
            return Ok(());
        }
        let Some(closed) = &self.closed else {
            return Err(CliFault::NotClosed);
        };
        take_generation(alloc, closed, &mut self.succession)?;
        self.is_taken = true;
        Ok(())
    }

    // Whether the succession has what the last engine did. If not, and not for want of memory, the server can't go on.
    fn has_taken(&mut self, alloc: Global) -> bool
        ensures { IsTrue result → IsTrue self.new.is_taken }
    {
        if self.broken.is_some() {
            return false;
        }
        match self.take(alloc) {
            Ok(()) => true,
            Err(CliFault::NotClosed) => {
                self.broken = Some(CliFault::NotClosed);
                false
            }
            Err(_) => false,
        }
    }

    // Writes what the last engine did, if that isn't done yet.
    fn keep_closed(&mut self, alloc: Global) {
        let Some(generation) = self.closed.take() else {
            return;
        };
        if let Err(fault) = self.write(alloc, &generation) {
            let _shown = eprintln!(&self.rt;
                "treedb: the trails of a generation were not written: {fault}"
            );
            if self.unwritten.is_none() {
                self.unwritten = Some(fault);
            }
        }
    }

    // Writes what an engine did, the one of this number.
    fn write(&self, alloc: Global, generation: &Generation) -> Result<(), CliFault> {
        match &self.trails {
            Trails::Nowhere => Ok(()),
            Trails::Folder(folder) => {
                let number = self.count.saturating_sub(1);
                let path = format!(in alloc; "{folder}/{number}.json")?;
                self.write_file(alloc, path.as_str(), generation)
            }
        }
    }

    fn write_file(
        &self,
        alloc: Global,
        path: &str,
        generation: &Generation,
    ) -> Result<(), CliFault> {
        let mut file = TrailFile::that_is_new(&self.rt, path);
        let written = keep_generation(alloc, generation, &mut file);
        if let Some(reason) = file.into_reason() {
            let _shown = eprintln!(&self.rt; "treedb: {path} can't be written: {reason}");
        }
        written
    }
}

impl<R: Files + Eprint + Wait> Archive<R> {
    // Compares what the last engine did with what the store has of it, if that isn't done yet.
    fn compare_closed(&mut self, alloc: Global) {
        if let (Some(comparer), Some(generation)) = (&mut self.comparer, &self.closed) {
            if let Err(difference) = comparer.compare(&self.rt, alloc, generation.chain()) {
                show_difference(&self.rt, difference);
            }
        }
    }
}

impl<R: Files + Eprint + Wait> Finish for Archive<R> {
    fn compare_by(&mut self, comparer: Option<Comparer>) {
        self.comparer = comparer;
    }

    fn compare_last(&mut self, alloc: Global) {
        self.compare_closed(alloc);
        self.comparer = None;
    }

    fn finish(&mut self, alloc: Global) -> Result<u64, CliFault> {
        if let Some(fault) = self.broken {
            return Err(fault);
        }
        self.take(alloc)?;
        self.keep_closed(alloc);
        Ok(self.count)
    }

    fn tree(&self) -> &Tree {
        self.succession.last().tree()
    }

    fn unwritten(&self) -> Option<CliFault> {
        self.unwritten
    }
}

impl<R: Files + Eprint + Wait> Keeper for Archive<R> {
    ghost use Rattle.std.specs.Prelude.{IsTrue};

    ghost has_closed = { λ a. IsTrue a.is_taken };

    fn close(&mut self, engine: Engine, sessions: Vec<Session>) {
        match close_generation(engine, sessions) {
            Ok(generation) => {
                self.closed = Some(generation);
                self.is_taken = false;
                self.count = self.count.saturating_add(1);
            }
            Err(fault) => self.broken = Some(fault),
        }
    }

    fn open(&mut self, alloc: Global) -> Option<Engine> {
        if !self.has_taken(alloc) {
            return None;
        }
        next_engine(alloc, &self.succession).ok()
    }

    fn left(&mut self, alloc: Global) -> Option<&Legacy> {
        if self.has_taken(alloc) {
            Some(self.succession.last())
        } else {
            None
        }
    }

    fn nodes(&self) -> u32 {
        self.succession.last().tree().shape().node_count()
    }

    fn check_growth(&self, parents: &[i64]) -> Result<(), GrowthFault> {
        self.succession.check_growth(parents, self.nodes)
    }

    fn grow(&mut self, alloc: Global, parents: &[i64]) -> Result<u32, GrowthFault> {
        if !self.has_taken(alloc) {
            return Err(GrowthFault::Memory);
        }
        self.succession.grow(alloc, parents, self.nodes)
    }

    fn replace(&mut self, alloc: Global, others: &Procedures) -> Result<(), ReplacingFault> {
        if !self.has_taken(alloc) {
            return Err(ReplacingFault::Memory);
        }
        self.succession.replace(alloc, others)
    }

    fn keep(&mut self, alloc: Global) {
        self.compare_closed(alloc);
        self.keep_closed(alloc);
    }
}
