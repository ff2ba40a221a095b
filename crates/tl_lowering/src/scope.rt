// What names stand for.

ghost use Rattle.std.specs.Prelude.{◌≡◌, ◌≢◌, ℕ, ◌+◌, ◌<◌, ◌≤◌, length, slice_set, get_or, take, drop, true, Some, None, IfOk, OnOk, IfSome};
ghost use Rattle.tl_instr.specs.declared.operand.TheConstants.{VALUE_REGISTERS, NODE_REGISTERS};
ghost use Rattle.tl_lowering.specs.declared.scope.Meaning.TheVariants.{Nothing, Value, Node};
ghost use Rattle.tl_lowering.specs.Names.{names_of, without_meaning, stands_for, field_named, index_of, constant_only, field_before, inside, with_alias, with_variable, with_constant, with_field, with_procedure, with_unnamed, with_room, with_index, with_value, with_node};
ghost use Rattle.tl_lowering.specs.Paths.{nodes_of};
ghost use Rattle.tl_lowering.specs.Sets.{holds};
ghost use Rattle.tl_lowering.specs.Scopes.{View, view_of, IsInUse, IsBare, Extends, meaning_of, node_in, forget};

use crate::paths::Held;
use std::alloc::{AllocError, Global};
use tl_instr::{Field, NodeRegister, VALUE_REGISTERS, ValueRegister};
use tl_syntax::parsed::Name;
use tl_syntax::{Symbol, SyntaxFault, Wrong};

/// What a name stands for at a place.
#[derive(Clone, Copy, Debug)]
pub enum Meaning {
    Nothing,
    /// Its number, and the index of its declaration.
    Constant(i64, usize),
    Value(ValueRegister),
    /// The place of a loop's child: a value that can't be assigned.
    Index(ValueRegister),
    Node(NodeRegister),
}

impl Meaning {
    // What a name stands for in the part that declaration `part` declares: a constant that is declared before it, or nothing.
    fn in_a_part(self, part: usize) -> Meaning
        ensures { result ≡ constant_only part self }
    {
        match self {
            Meaning::Constant(number, index) if index < part => Meaning::Constant(number, index),
            _ => Meaning::Nothing,
        }
    }
}

// A field with the index of its declaration, if it is known in the part that declaration `part` declares.
fn field_in_a_part(field: Option<(Field, usize)>, part: usize) -> Option<(Field, usize)>
    ensures { result ≡ field_before part field }
{
    match field {
        Some((field, index)) if index < part => Some((field, index)),
        _ => None,
    }
}

/// What is declared at a place. Nothing is shadowed, so each name stands for one thing.
#[derive(Drop)]
pub struct Scope {
    meanings: Vec<Meaning>,
    // With the index of its declaration.
    fields: Vec<Option<(Field, usize)>>,
    // The index of the declaration of the procedure or the part that has a name.
    procedures: Vec<Option<usize>>,
    // The names that the open blocks have declared so far, those of the outer blocks first.
    local: Vec<Symbol>,
    /// The number of values, including those without a name.
    pub values: u8,
    /// The number of nodes, including those that were freed.
    pub nodes: u8,
    /// The number of loops around the place.
    pub loops: u8,
}

/// What a block must undo at its end.
#[derive(Clone, Copy)]
pub struct Mark {
    local: usize,
    values: u8,
    nodes: u8,
}

impl Scope {
    /// An empty scope for `names` names.
    pub fn new(alloc: Global, names: usize) -> Result<Scope, AllocError>
        ensures bare { IfOk result (λ s. IsBare (view_of s)) }
        ensures named { IfOk result (λ s. names_of s ≡ without_meaning names) }
    {
        Ok(Scope {
            meanings: vec![in alloc; Meaning::Nothing; names]?,
            fields: vec![in alloc; None; names]?,
            procedures: vec![in alloc; None; names]?,
            local: Vec::new(alloc),
            values: 0,
            nodes: 0,
            loops: 0,
        })
    }

    /// How many names the text has.
    pub fn name_count(&self) -> usize {
        self.meanings.len()
    }

    fn meaning(&self, name: Name) -> Meaning
        ensures { result ≡ meaning_of (view_of self.now) name.symbol }
    {
        match self.meanings.get(name.symbol.0) {
            Some(meaning) => *meaning,
            None => Meaning::Nothing,
        }
    }

    fn set(&mut self, symbol: Symbol, meaning: Meaning)
        ensures meanings { self.new.meanings.items ≡ slice_set self.old.meanings.items symbol.0 meaning }
        ensures fields { self.new.fields.items ≡ self.old.fields.items }
        ensures procedures { self.new.procedures.items ≡ self.old.procedures.items }
        ensures local { self.new.local.items ≡ self.old.local.items }
        ensures values { self.new.values ≡ self.old.values }
        ensures nodes { self.new.nodes ≡ self.old.nodes }
        ensures loops { self.new.loops ≡ self.old.loops }
    {
        if symbol.0 < self.meanings.len() {
            self.meanings[symbol.0] = meaning;
        }
    }

    /// 276 if the name is declared already.
    pub fn check_new(&self, name: Name) -> Result<(), SyntaxFault>
        ensures { OnOk result (meaning_of (view_of self.now) name.symbol ≡ Nothing) }
    {
        match self.meaning(name) {
            Meaning::Nothing => Ok(()),
            _ => Err(SyntaxFault::at(Wrong::Twice, name.offset)),
        }
    }

    /// The declaration with that index declares a field.
    pub fn declare_field(&mut self, name: Name, field: Field, index: usize)
        ensures bare { IsBare (view_of self.old) → IsBare (view_of self.new) }
        ensures named { names_of self.new ≡ with_field (names_of self.old) name field index }
    {
        if name.symbol.0 < self.fields.len() {
            self.fields[name.symbol.0] = Some((field, index));
        }
    }

    /// The declaration with that index declares a constant.
    pub fn declare_constant(&mut self, name: Name, number: i64, index: usize)
        ensures in_use { IsInUse (view_of self.old) → IsInUse (view_of self.new) }
        ensures values { self.new.values ≡ self.old.values }
        ensures nodes { self.new.nodes ≡ self.old.nodes }
        ensures loops { self.new.loops ≡ self.old.loops }
        ensures named { names_of self.new ≡ with_constant (names_of self.old) name number index }
    {
        self.set(name.symbol, Meaning::Constant(number, index));
    }

    /// Declares a procedure or a part. 276 if one of that name is declared already.
    pub fn declare_procedure(&mut self, name: Name, index: usize) -> Result<(), SyntaxFault>
        ensures bare { OnOk result (IsBare (view_of self.old) → IsBare (view_of self.new)) }
        ensures fresh { OnOk result (index_of (names_of self.old) name ≡ None) }
        ensures named { OnOk result (names_of self.new ≡ with_procedure (names_of self.old) name index) }
    {
        let symbol = name.symbol.0;
        if let Some(Some(_)) = self.procedures.get(symbol) {
            return Err(SyntaxFault::at(Wrong::Twice, name.offset));
        }
        if symbol < self.procedures.len() {
            self.procedures[symbol] = Some(index);
        }
        Ok(())
    }

    /// The index of the declaration of the procedure or the part of that name. 275 if there is none.
    pub fn index(&self, name: Name) -> Result<usize, SyntaxFault>
        ensures { IfOk result (λ k. index_of (names_of self.now) name ≡ Some k) }
    {
        match self.procedures.get(name.symbol.0) {
            Some(Some(index)) => Ok(*index),
            _ => Err(SyntaxFault::at(Wrong::Unknown, name.offset)),
        }
    }

    /// The scope in the part that declaration `part` declares, used here: of the names only those of constants and fields are known
    /// that are declared before the part.
    pub fn inside(&self, alloc: Global, part: usize) -> Result<Scope, AllocError>
        ensures in_use { IfOk result (λ s. IsInUse (view_of s)) }
        ensures nodes { IfOk result (λ s. (i n : ℕ) → get_or (view_of s).meanings i Nothing ≢ Node n) }
        ensures named { IfOk result (λ s. names_of s ≡ inside part (names_of self.now)) }
    {
        let mut meanings = Vec::new(alloc);
        for meaning in &self.meanings {
            meanings.push(meaning.in_a_part(part))?;
        }
        let mut fields = Vec::new(alloc);
        for field in &self.fields {
            fields.push(field_in_a_part(*field, part))?;
        }
        Ok(Scope {
            meanings,
            fields,
            procedures: Vec::from_slice(alloc, &self.procedures)?,
            local: Vec::new(alloc),
            values: self.values,
            nodes: self.nodes,
            loops: 0,
        })
    }

    /// The register of the next value. 291 at `offset` if there is none.
    pub fn next_value(&self, offset: usize) -> Result<ValueRegister, SyntaxFault>
        ensures register { IfOk result (λ r. r ≡ self.now.values) }
        ensures room { OnOk result (self.now.values < VALUE_REGISTERS) }
    {
        match ValueRegister::new(self.values) {
            Some(register) => Ok(register),
            None => Err(SyntaxFault::at(Wrong::Values, offset)),
        }
    }

    /// The register of the next node after `skipped` others. 292 at `offset` if there is none.
    pub fn next_node(&self, skipped: u8, offset: usize) -> Result<NodeRegister, SyntaxFault>
        ensures register { IfOk result (λ r. r ≡ self.now.nodes + skipped) }
        ensures room { OnOk result (self.now.nodes + skipped < NODE_REGISTERS) }
    {
        match NodeRegister::new(self.nodes.saturating_add(skipped)) {
            Some(register) => Ok(register),
            None => Err(SyntaxFault::at(Wrong::Nodes, offset)),
        }
    }

    /// From here on the name stands for a value in `register`, which must be the next one.
    pub fn declare_value(&mut self, name: Name, register: ValueRegister) -> Result<(), SyntaxFault>
        requires { register ≡ self.old.values }
        ensures in_use { OnOk result (IsInUse (view_of self.old) → IsInUse (view_of self.new)) }
        ensures values { OnOk result (self.new.values ≡ self.old.values + 1) }
        ensures nodes { OnOk result (self.new.nodes ≡ self.old.nodes) }
        ensures fields { OnOk result (self.new.fields.items ≡ self.old.fields.items) }
        ensures procedures { OnOk result (self.new.procedures.items ≡ self.old.procedures.items) }
        ensures loops { OnOk result (self.new.loops ≡ self.old.loops) }
        ensures names { OnOk result ((outer : View) → meaning_of (view_of self.old) name.symbol ≡ Nothing → Extends outer (view_of self.old)
            → Extends outer (view_of self.new)) }
        ensures named { OnOk result (names_of self.new ≡ with_value (names_of self.old) name) }
    {
        self.local.push(name.symbol)?;
        self.set(name.symbol, Meaning::Value(register));
        self.add_value();
        Ok(())
    }

    /// From here on the name, if there is one, stands for the place of a loop's child. It is in `register`, which must be the next one.
    pub fn declare_index(
        &mut self,
        name: Option<Name>,
        register: ValueRegister,
    ) -> Result<(), SyntaxFault>
        requires { register ≡ self.old.values }
        ensures in_use { OnOk result (IsInUse (view_of self.old) → IsInUse (view_of self.new)) }
        ensures values { OnOk result (self.new.values ≡ self.old.values + 1) }
        ensures nodes { OnOk result (self.new.nodes ≡ self.old.nodes) }
        ensures loops { OnOk result (self.new.loops ≡ self.old.loops) }
        ensures names { OnOk result ((outer : View) → IfSome name (λ n. meaning_of (view_of self.old) n.symbol ≡ Nothing) → Extends outer (view_of self.old)
            → Extends outer (view_of self.new)) }
        ensures named { OnOk result (names_of self.new ≡ with_index (names_of self.old) name) }
    {
        let Some(name) = name else {
            self.add_value();
            return Ok(());
        };
        self.local.push(name.symbol)?;
        self.set(name.symbol, Meaning::Index(register));
        self.add_value();
        Ok(())
    }

    /// Adds a value without a name.
    pub fn add_value(&mut self)
        requires { self.old.values < VALUE_REGISTERS }
        ensures in_use { IsInUse (view_of self.old) → IsInUse (view_of self.new) }
        ensures values { self.new.values ≡ self.old.values + 1 }
        ensures nodes { self.new.nodes ≡ self.old.nodes }
        ensures loops { self.new.loops ≡ self.old.loops }
        ensures meanings { self.new.meanings.items ≡ self.old.meanings.items }
        ensures fields { self.new.fields.items ≡ self.old.fields.items }
        ensures procedures { self.new.procedures.items ≡ self.old.procedures.items }
        ensures local { self.new.local.items ≡ self.old.local.items }
        ensures named { names_of self.new ≡ with_unnamed (names_of self.old) }
    {
        self.values = self.values.saturating_add(1);
    }

    /// Adds so many values without names. 291 at `offset` if there aren't so many.
    pub fn add_values(&mut self, count: usize, offset: usize) -> Result<(), SyntaxFault>
        ensures in_use { OnOk result (IsInUse (view_of self.old) → IsInUse (view_of self.new)) }
        ensures room { OnOk result (self.old.values + count ≤ VALUE_REGISTERS) }
        ensures values { OnOk result (self.new.values ≡ self.old.values + count) }
        ensures nodes { OnOk result (self.new.nodes ≡ self.old.nodes) }
        ensures loops { OnOk result (self.new.loops ≡ self.old.loops) }
        ensures meanings { OnOk result (self.new.meanings.items ≡ self.old.meanings.items) }
        ensures fields { OnOk result (self.new.fields.items ≡ self.old.fields.items) }
        ensures procedures { OnOk result (self.new.procedures.items ≡ self.old.procedures.items) }
        ensures local { OnOk result (self.new.local.items ≡ self.old.local.items) }
        ensures named { OnOk result (names_of self.new ≡ with_room (names_of self.old) count) }
    {
        let values = usize::from(self.values).saturating_add(count);
        if values > VALUE_REGISTERS {
            return Err(SyntaxFault::at(Wrong::Values, offset));
        }
        match u8::try_from(values) {
            Ok(values) => {
                self.values = values;
                Ok(())
            }
            Err(_) => Err(SyntaxFault::at(Wrong::Values, offset)),
        }
    }

    /// From here on the name owns a node in `register`, which must be the next one.
    pub fn declare_node(&mut self, name: Name, register: NodeRegister) -> Result<(), SyntaxFault>
        requires { register ≡ self.old.nodes }
        ensures in_use { OnOk result (IsInUse (view_of self.old) → IsInUse (view_of self.new)) }
        ensures values { OnOk result (self.new.values ≡ self.old.values) }
        ensures nodes { OnOk result (self.new.nodes ≡ self.old.nodes + 1) }
        ensures meanings { OnOk result (self.new.meanings.items ≡ slice_set self.old.meanings.items name.symbol.0 (Node register)) }
        ensures fields { OnOk result (self.new.fields.items ≡ self.old.fields.items) }
        ensures procedures { OnOk result (self.new.procedures.items ≡ self.old.procedures.items) }
        ensures loops { OnOk result (self.new.loops ≡ self.old.loops) }
        ensures names { OnOk result ((outer : View) → meaning_of (view_of self.old) name.symbol ≡ Nothing → Extends outer (view_of self.old)
            → Extends outer (view_of self.new)) }
        ensures named { OnOk result (names_of self.new ≡ with_node (names_of self.old) name) }
    {
        self.local.push(name.symbol)?;
        self.set(name.symbol, Meaning::Node(register));
        self.nodes = self.nodes.saturating_add(1);
        Ok(())
    }

    /// From here on the name stands for a node that has another name outside of the part.
    pub fn declare_alias(&mut self, name: Name, register: NodeRegister) -> Result<(), SyntaxFault>
        ensures values { OnOk result (self.new.values ≡ self.old.values) }
        ensures nodes { OnOk result (self.new.nodes ≡ self.old.nodes) }
        ensures loops { OnOk result (self.new.loops ≡ self.old.loops) }
        ensures named { OnOk result (names_of self.new ≡ with_alias (names_of self.old) name register) }
    {
        self.local.push(name.symbol)?;
        self.set(name.symbol, Meaning::Node(register));
        Ok(())
    }

    /// From here on the name stands for a value that has another name outside of the part, or none so far.
    pub fn declare_variable(
        &mut self,
        name: Name,
        register: ValueRegister,
    ) -> Result<(), SyntaxFault>
        requires { register < self.old.values }
        ensures in_use { OnOk result (IsInUse (view_of self.old) → IsInUse (view_of self.new)) }
        ensures values { OnOk result (self.new.values ≡ self.old.values) }
        ensures nodes { OnOk result (self.new.nodes ≡ self.old.nodes) }
        ensures loops { OnOk result (self.new.loops ≡ self.old.loops) }
        ensures names { OnOk result ((outer : View) → meaning_of (view_of self.old) name.symbol ≡ Nothing → Extends outer (view_of self.old)
            → Extends outer (view_of self.new)) }
        ensures named { OnOk result (names_of self.new ≡ with_variable (names_of self.old) name register) }
    {
        self.local.push(name.symbol)?;
        self.set(name.symbol, Meaning::Value(register));
        Ok(())
    }

    pub fn mark(&self) -> Mark
        ensures local { result.local ≡ length self.now.local.items }
        ensures values { result.values ≡ self.now.values }
        ensures nodes { result.nodes ≡ self.now.nodes }
    {
        Mark {
            local: self.local.len(),
            values: self.values,
            nodes: self.nodes,
        }
    }

    /// Undoes the declarations since the mark.
    pub fn return_to(&mut self, mark: Mark)
        ensures meanings { self.new.meanings.items ≡ forget (drop mark.local self.old.local.items) self.old.meanings.items }
        ensures fields { self.new.fields.items ≡ self.old.fields.items }
        ensures procedures { self.new.procedures.items ≡ self.old.procedures.items }
        ensures local { self.new.local.items ≡ take mark.local self.old.local.items }
        ensures values { self.new.values ≡ mark.values }
        ensures nodes { self.new.nodes ≡ mark.nodes }
        ensures loops { self.new.loops ≡ self.old.loops }
    {
        while self.local.len() > mark.local {
            if let Some(symbol) = self.local.pop() {
                self.set(symbol, Meaning::Nothing);
            }
        }
        self.values = mark.values;
        self.nodes = mark.nodes;
    }

    /// What the name stands for. 275 if it stands for nothing.
    pub fn known(&self, name: Name) -> Result<Meaning, SyntaxFault>
        ensures { IfOk result (λ m. m ≡ meaning_of (view_of self.now) name.symbol) }
    {
        match self.meaning(name) {
            Meaning::Nothing => Err(SyntaxFault::at(Wrong::Unknown, name.offset)),
            meaning => Ok(meaning),
        }
    }

    /// The register of a value. 275 if the name is unknown, 277 if it isn't a value.
    pub fn value(&self, name: Name) -> Result<ValueRegister, SyntaxFault>
        ensures in_use { IsInUse (view_of self.now) → IfOk result (λ r. r < self.now.values) }
        ensures named { IfOk result (λ r. stands_for (names_of self.now) name ≡ Value r) }
    {
        match self.known(name)? {
            Meaning::Value(register) => Ok(register),
            _ => Err(SyntaxFault::at(Wrong::NoValue, name.offset)),
        }
    }

    /// The register of a held node. 275 if the name is unknown, 277 if it isn't a node, 281 if the node isn't held.
    pub fn node(&self, name: Name, held: Held) -> Result<NodeRegister, SyntaxFault>
        ensures held { IfOk result (λ r. holds (nodes_of held) r ≡ true) }
        ensures meaning { IfOk result (λ r. meaning_of (view_of self.now) name.symbol ≡ Node r) }
    {
        match self.known(name)? {
            Meaning::Node(register) if held.holds(register) => Ok(register),
            Meaning::Node(_) => Err(SyntaxFault::at(Wrong::NotHeld, name.offset)),
            _ => Err(SyntaxFault::at(Wrong::NoNode, name.offset)),
        }
    }

    /// The register that the name owns a node by, if it may.
    pub fn register_of(&self, name: Name) -> Option<NodeRegister>
        ensures { result ≡ node_in (meaning_of (view_of self.now) name.symbol) }
    {
        match self.meaning(name) {
            Meaning::Node(register) => Some(register),
            _ => None,
        }
    }

    /// The field of that name. 275 if there is none.
    pub fn field(&self, name: Name) -> Result<Field, SyntaxFault>
        ensures { IfOk result (λ f. field_named (names_of self.now) name ≡ Some f) }
    {
        match self.fields.get(name.symbol.0) {
            Some(Some((field, _))) => Ok(*field),
            _ => Err(SyntaxFault::at(Wrong::Unknown, name.offset)),
        }
    }

    /// 276 if a field of that name is declared already.
    pub fn check_new_field(&self, name: Name) -> Result<(), SyntaxFault>
        ensures { OnOk result (field_named (names_of self.now) name ≡ None) }
    {
        match self.fields.get(name.symbol.0) {
            Some(Some(_)) => Err(SyntaxFault::at(Wrong::Twice, name.offset)),
            _ => Ok(()),
        }
    }
}
