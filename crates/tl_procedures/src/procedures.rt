// Procedures under their names.

ghost use Rattle.std.specs.Prelude.{map, string_bytes, ◌+◌, ◌≡◌, ◌≢◌, ◌≤◌, ◌<◌, ◌∷◌, ◌++◌, [], length, None, Some, IfOk, OnOk, OnErr, IfErr, slice_get, option_map, IsTrue, ◌↔◌, get_or};
ghost use Rattle.std.specs.Arc.{arc_value};
ghost use Rattle.tl_procedures.specs.Names.{number_of, is_name, naming_refusal, no_procedure, AreFreeAfter, BeginsWith, IsFirstRefused, AreKnown, with_code, replaced, put, KeepsNames, OtherNamesBelow, AreOtherNames};
ghost use Rattle.tl_procedures.specs.declared.fault.NamingFault.TheVariants as fault;
ghost use Rattle.tl_procedures.specs.declared.fault.ReplacingFault.TheVariants as replacing;

use crate::fault::{NamingFault, ReplacingFault};
use crate::named::NamedProcedure;
use indexmap::IndexMap;
use std::alloc::{AllocError, Global};
use std::marker::Model;
use std::sync::Arc;
use tl_verify::Proc;

/// The most procedures that there may be.
pub const MAX_PROCEDURES: usize = 256;

/// The most bytes that a name may have.
pub const MAX_NAME: usize = 32;

/// Procedures under their names, numbered in the order in which they were added.
#[derive(Debug, Drop)]
pub struct Procedures {
    by_name: IndexMap<String, Arc<Proc>>,
}

impl Model for Procedures {
    ghost use Rattle.std.specs.Prelude.{List, [], map, length, ◌≤◌, string_bytes};
    ghost use Rattle.std.specs.Arc.{arc_value};
    ghost use Rattle.tl_procedures.specs.Names.{Named, AreFreeAfter};
    ghost use Rattle.tl_procedures.specs.declared.procedures.TheConstants.{MAX_PROCEDURES};

    ghost Value = { List Named };

    ghost view = { λ p. map (λ e. record { name = string_bytes e.0; code = arc_value e.1 }) p.by_name.entries };

    ghost invariant = { λ p. (length p.by_name.entries ≤ MAX_PROCEDURES)
        × AreFreeAfter [] (map (λ e. record { name = string_bytes e.0; code = arc_value e.1 }) p.by_name.entries) };
}

impl Procedures {
    pub fn new(alloc: Global) -> Procedures
        ensures { result ≡ [] }
    {
        Procedures {
            by_name: IndexMap::new(alloc),
        }
    }

    pub fn len(&self) -> usize
        ensures value { result ≡ length self.now }
        ensures few { result ≤ MAX_PROCEDURES }
        ensures free { AreFreeAfter [] self.now }
    {
        self.by_name.len()
    }

    /// The number of the procedure with that name.
    pub fn number_of(&self, name: &str) -> Option<u32>
        ensures { result ≡ number_of self.now name.now }
    {
        match self.by_name.get_index_of(name) {
            Some(number) => Some(number as u32),
            None => None,
        }
    }

    /// The procedure with that number.
    pub fn get(&self, number: u32) -> &Arc<Proc>
        requires { number < length self.now }
        ensures { arc_value result.now ≡ (get_or self.now number no_procedure).code }
    {
        match self.by_name.get_index(number as usize) {
            Some((_, procedure)) => procedure,
            None => unreachable!(),
        }
    }

    /// The name of the procedure with that number.
    pub fn name(&self, number: u32) -> &str
        requires { number < length self.now }
        ensures { result.now ≡ (get_or self.now number no_procedure).name }
    {
        match self.by_name.get_index(number as usize) {
            Some((name, _)) => name.as_str(),
            None => unreachable!(),
        }
    }

    /// Adds a procedure as the last, under a new name, and returns its number. The first fault is given, of 612, 611 and
    /// 613 in that order; if there is none, 690 if memory is refused.
    pub fn add(&mut self, alloc: Global, name: &str, procedure: Proc) -> Result<u32, NamingFault>
        ensures number { IfOk result (λ n. n ≡ length self.old) }
        ensures free { IfOk result (λ _. naming_refusal self.old name.now ≡ None) }
        ensures last { OnOk result (self.new ≡ self.old ++ record { name = name.now; code = procedure } ∷ []) }
        ensures fault { IfErr result (λ e. e ≢ fault.Memory → naming_refusal self.old name.now ≡ Some e) }
        ensures memory { IfErr result (λ e. e ≡ fault.Memory → naming_refusal self.old name.now ≡ None) }
        ensures err { OnErr result (self.new ≡ self.old) }
    {
        self.find_free(name)?;
        let Ok(procedure) = Arc::new(alloc, procedure) else {
            return Err(NamingFault::Memory);
        };
        self.put_last(alloc, name, procedure)
    }

    /// The same with a procedure that is shared.
    pub fn add_shared(
        &mut self,
        alloc: Global,
        name: &str,
        procedure: &Arc<Proc>,
    ) -> Result<u32, NamingFault>
        ensures number { IfOk result (λ n. n ≡ length self.old) }
        ensures free { IfOk result (λ _. naming_refusal self.old name.now ≡ None) }
        ensures last { OnOk result (self.new ≡ self.old ++ record { name = name.now; code = arc_value procedure.now } ∷ []) }
        ensures fault { IfErr result (λ e. e ≢ fault.Memory → naming_refusal self.old name.now ≡ Some e) }
        ensures memory { IfErr result (λ e. e ≡ fault.Memory → naming_refusal self.old name.now ≡ None) }
        ensures err { OnErr result (self.new ≡ self.old) }
    {
        self.find_free(name)?;
        self.put_last(alloc, name, Arc::try_clone(procedure)?)
    }

    /// These procedures and then `more`, in their order; or the fault of the first name that is refused: 612, 611 or 613; 690 if memory is
    /// refused.
    pub fn and_all(
        self,
        alloc: Global,
        more: Vec<NamedProcedure>,
    ) -> Result<Procedures, NamingFault>
        ensures free { IfOk result (λ _. AreFreeAfter self more.items) }
        ensures added { IfOk result (λ all. all ≡ self ++ more.items) }
        ensures fault { IfErr result (λ e. e ≢ fault.Memory → IsFirstRefused self more.items e) }
    {
        let mut procedures = self;
        for named in more {
            let (name, procedure) = named.into_parts();
            procedures.add(alloc, &name, procedure)?;
        }
        Ok(procedures)
    }

    /// Adds all of `more`, in their order, or none. Otherwise the fault of the first name that is refused: 612, 611 or 613; 690 if memory is
    /// refused.
    pub fn add_all(&mut self, alloc: Global, more: Vec<NamedProcedure>) -> Result<(), NamingFault>
        ensures free { IfOk result (λ _. AreFreeAfter self.old more.items) }
        ensures added { OnOk result (self.new ≡ self.old ++ more.items) }
        ensures fault { IfErr result (λ e. e ≢ fault.Memory → IsFirstRefused self.old more.items e) }
        ensures err { OnErr result (self.new ≡ self.old) }
    {
        *self = self.copy(alloc)?.and_all(alloc, more)?;
        Ok(())
    }

    /// The same procedures under the same names, but the code of this one under its name.
    fn with_code(
        &self,
        alloc: Global,
        name: &str,
        procedure: &Arc<Proc>,
    ) -> Result<Procedures, AllocError>
        ensures { IfOk result (λ p. p ≡ map (with_code (record { name = name.now; code = arc_value procedure.now })) self.now) }
    {
        let mut copy = Procedures::new(alloc);
        for number in 0..self.len() as u32 {
            let own = self.name(number);
            let code = if own == name {
                procedure
            } else {
                self.get(number)
            };
            let Ok(_) = copy.add_shared(alloc, own, code) else {
                return Err(AllocError);
            };
        }
        Ok(copy)
    }

    // The same procedures under the same names, but the codes of these, one after another, under theirs.
    fn with_codes(&self, alloc: Global, others: &Procedures) -> Result<Procedures, AllocError>
        ensures { IfOk result (λ p. p ≡ replaced self.now others.now) }
    {
        let mut procedures = self.copy(alloc)?;
        for number in 0..others.len() as u32 {
            procedures = procedures.with_code(alloc, others.name(number), others.get(number))?;
        }
        Ok(procedures)
    }

    // Whether one of them has the name of that one of the others.
    fn has(&self, others: &Procedures, number: u32) -> bool
        requires { number < length others.now }
        ensures { IsTrue result ↔ (number_of self.now (get_or others.now number no_procedure).name ≢ None) }
    {
        self.number_of(others.name(number)).is_some()
    }

    /// Whether each of the others has the name of one of them.
    pub fn has_all(&self, others: &Procedures) -> bool
        ensures { IsTrue result ↔ AreKnown self.now others.now }
    {
        for number in 0..others.len() as u32 {
            if !self.has(others, number) {
                return false;
            }
        }
        true
    }

    /// Puts a procedure in the place of the one with its name, or adds it as the last if there is none. 612 or 613 if the name can't be added;
    /// 690 if memory is refused.
    pub fn put(&mut self, alloc: Global, name: &str, procedure: Proc) -> Result<(), NamingFault>
        ensures put { OnOk result (self.new ≡ put self.old (record { name = name.now; code = procedure })) }
        ensures fault { IfErr result (λ e. e ≢ fault.Memory → (number_of self.old name.now ≡ None) × (naming_refusal self.old name.now ≡ Some e)) }
        ensures err { OnErr result (self.new ≡ self.old) }
    {
        if self.number_of(name).is_none() {
            self.add(alloc, name, procedure)?;
            return Ok(());
        }
        let Ok(procedure) = Arc::new(alloc, procedure) else {
            return Err(NamingFault::Memory);
        };
        *self = self.with_code(alloc, name, &procedure)?;
        Ok(())
    }

    /// Puts the code of each of the others in the place of the one with its name, or changes nothing: 601 if there is no procedure of one of
    /// the names; 690 if memory is refused.
    pub fn replace_all(&mut self, alloc: Global, others: &Procedures) -> Result<(), ReplacingFault>
        ensures known { OnOk result (AreKnown self.old others.now) }
        ensures replaced { OnOk result (self.new ≡ replaced self.old others.now) }
        ensures fault { IfErr result (λ e. e ≡ replacing.NoProcedure → AreKnown self.old others.now → ⊥) }
        ensures memory { IfErr result (λ e. e ≡ replacing.Memory → AreKnown self.old others.now) }
        ensures err { OnErr result (self.new ≡ self.old) }
    {
        if !self.has_all(others) {
            return Err(ReplacingFault::NoProcedure);
        }
        match self.with_codes(alloc, others) {
            Ok(procedures) => {
                *self = procedures;
                Ok(())
            }
            Err(_) => Err(ReplacingFault::Memory),
        }
    }

    /// The same procedures under the same names. No name is refused, since each was free when it was added.
    pub fn copy(&self, alloc: Global) -> Result<Procedures, AllocError>
        ensures { IfOk result (λ p. p ≡ self.now) }
    {
        let mut copy = Procedures::new(alloc);
        for number in 0..self.len() as u32 {
            let Ok(_) = copy.add_shared(alloc, self.name(number), self.get(number)) else {
                return Err(AllocError);
            };
        }
        Ok(copy)
    }

    /// Whether they begin with `first`: the same codes under the same names.
    pub fn begin_with(&self, first: &Procedures) -> bool
        ensures { IsTrue result ↔ BeginsWith first.now self.now }
    {
        if !self.keep_names(first) {
            return false;
        }
        for number in 0..first.len() as u32 {
            if !self.get(number).is(first.get(number)) {
                return false;
            }
        }
        true
    }

    /// Whether they begin with procedures of the same names as `first`; their codes may be others.
    pub fn keep_names(&self, first: &Procedures) -> bool
        ensures { IsTrue result ↔ KeepsNames first.now self.now }
    {
        if self.len() < first.len() {
            return false;
        }
        for number in 0..first.len() as u32 {
            if self.name(number) != first.name(number) {
                return false;
            }
        }
        true
    }

    // Adds the name of the next procedure, if it has another code here.
    #[tactic(auto, using(crate::proofs::Others::others_push, crate::proofs::Others::others_same))]
    fn add_other(
        &self,
        alloc: Global,
        first: &Procedures,
        number: u32,
        names: &mut Vec<String>,
    ) -> Result<(), AllocError>
        requires inside { number < length first.now }
        requires within { number < length self.now }
        requires so_far { OtherNamesBelow number first.now self.now (map string_bytes names.old.items) }
        ensures { OnOk result (OtherNamesBelow (number + 1) first.now self.now (map string_bytes names.new.items)) }
    {
        if self.get(number).is(first.get(number)) {
            return Ok(());
        }
        names.push(String::from_str(alloc, first.name(number))?)?;
        Ok(())
    }

    /// The names of those of `first` that have other codes here, under the same numbers.
    #[tactic(auto, using(crate::proofs::Others::others_none))]
    pub fn others(&self, alloc: Global, first: &Procedures) -> Result<Vec<String>, AllocError>
        requires { length first.now ≤ length self.now }
        ensures { IfOk result (λ v. AreOtherNames first.now self.now (map string_bytes v.items)) }
    {
        let mut names = Vec::new(alloc);
        for number in 0..first.len() as u32 {
            self.add_other(alloc, first, number, &mut names)?;
        }
        Ok(names)
    }

    // Whether a procedure may be added under the name: 612, 611, 613.
    fn find_free(&self, name: &str) -> Result<(), NamingFault>
        ensures free { OnOk result (naming_refusal self.now name.now ≡ None) }
        ensures fault { IfErr result (λ e. naming_refusal self.now name.now ≡ Some e) }
        ensures named { IfErr result (λ e. e ≢ fault.Memory) }
    {
        if !is_name(name.as_bytes()) {
            return Err(NamingFault::BadName);
        }
        if self.number_of(name).is_some() {
            return Err(NamingFault::NameTaken);
        }
        if self.len() >= MAX_PROCEDURES {
            return Err(NamingFault::TooManyProcedures);
        }
        Ok(())
    }

    // Adds a procedure as the last, under a name that is free.
    fn put_last(
        &mut self,
        alloc: Global,
        name: &str,
        procedure: Arc<Proc>,
    ) -> Result<u32, NamingFault>
        requires { naming_refusal self.old name.now ≡ None }
        ensures number { IfOk result (λ n. n ≡ length self.old) }
        ensures last { OnOk result (self.new ≡ self.old ++ record { name = name.now; code = arc_value procedure } ∷ []) }
        ensures fault { IfErr result (λ e. e ≡ fault.Memory) }
        ensures err { OnErr result (self.new ≡ self.old) }
    {
        let number = self.len();
        let name = String::from_str(alloc, name)?;
        match self.by_name.insert(name, procedure) {
            Ok(_) => Ok(number as u32),
            Err(_) => Err(NamingFault::Memory),
        }
    }
}

// A name is 1 to 32 ASCII letters, digits or `_`.
fn is_name(name: &[u8]) -> bool
    ensures { result ≡ is_name name.now }
{
    !name.is_empty()
        && name.len() <= MAX_NAME
        && name
            .iter()
            .all(|byte| byte.is_ascii_alphanumeric() || *byte == b'_')
}
