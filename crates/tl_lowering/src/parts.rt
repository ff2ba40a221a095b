// Parts where they are used: their bodies, in the names that they are given there.

ghost use Rattle.std.specs.Prelude.{◌≡◌, ℕ, ◌+◌, ◌<◌, ◌≤◌, length, true, false, Some, slice_get, get_or, IfOk, OnOk};
ghost use Rattle.tl_budget.specs.declared.limits.TheConstants.{MAX_DEPTH};
ghost use Rattle.tl_lowering.specs.Entering.{before_of, IsEntering};
ghost use Rattle.tl_lowering.specs.Fit.{loops};
ghost use Rattle.tl_lowering.specs.Giving.{IsNodeGiven, IsVariableGiven, IsValueGiven};
ghost use Rattle.tl_lowering.specs.Names.{names_of, index_of};
ghost use Rattle.tl_lowering.specs.Paths.{nodes_of};
ghost use Rattle.tl_lowering.specs.Drafts.{IsUsed};
ghost use Rattle.tl_lowering.specs.Reading.{IsGiven};
ghost use Rattle.tl_lowering.specs.Scopes.{view_of, IsInUse, IsAt, IsLowered};
ghost use Rattle.tl_lowering.specs.Sets.{holds};
ghost use Rattle.tl_lowering.specs.Sound.{IsReadable};
ghost use Rattle.tl_lowering.specs.declared.scope.Meaning.TheVariants.{Nothing, Node};
ghost use Rattle.tl_syntax.specs.declared.parsed.Declaration.TheVariants.{Part as part_declaration};

use crate::lowering::{Lowered, Lowering};
use crate::paths::Held;
use crate::program::{Expression, Statement};
use crate::readers::Readers;
use crate::scope::Scope;
use crate::values::{check_registers, registers_of};
use tl_budget::MAX_DEPTH;
use tl_instr::ValueRegister;
use tl_syntax::parsed::{self, Declaration, Form, Name, Parameter, Part};
use tl_syntax::{SyntaxFault, Wrong};

/// How many words and signs the bodies of parts may have in all where they are used, those in others counted each time.
pub const MAX_PART_SIZE: usize = 262_144;

/// How many parts may be in one another.
pub const MAX_PART_DEPTH: u8 = 4;

/// How many blocks may be in one another, those of parts counted where they are used.
pub const MAX_BLOCKS: usize = 80;

/// How many statements a text may have, each counted as often as blocks are around it, those of parts at each use.
pub const MAX_WORK: usize = 262_144;

// At a use of a part, so many names count as one word.
const NAMES_A_WORD: usize = 16;

// A part where it is used: what names stand for outside, the declarations before the part, its body, and the offset of its name.
#[derive(Clone, Copy)]
struct Using<'a> {
    outer: &'a Scope,
    before: &'a [Declaration],
    body: &'a [parsed::Statement],
    offset: usize,
}

// Whether no more than that many loops are in one another.
fn nests_within(statement: &Statement, levels: usize) -> bool
    ensures within { result ≡ true → loops statement.now ≤ levels }
    ensures beyond { result ≡ false → levels < loops statement.now }
{
    match statement {
        Statement::Skip
        | Statement::Assign(_, _)
        | Statement::Write(_, _, _)
        | Statement::Emit(_)
        | Statement::Free(_)
        | Statement::Descend(_, _)
        | Statement::Take(_, _)
        | Statement::Break
        | Statement::Return
        | Statement::Fail => true,
        Statement::Sequence(first, second)
        | Statement::If(_, first, second)
        | Statement::LetElse(_, _, first, second)
        | Statement::Lock(_, first, second)
        | Statement::Try(first, second) => {
            nests_within(first, levels) && nests_within(second, levels)
        }
        Statement::Let(_, _, body) | Statement::At(_, body) => nests_within(body, levels),
        Statement::Repeat(_, body) | Statement::RepeatUpTo(_, _, body) => {
            levels > 0 && nests_within(body, levels - 1)
        }
    }
}

impl Lowering {
    // The part of that name, and its index among the declarations. 275 if none of that name is declared before, 277 if it is a
    // procedure.
    fn part<'a>(
        &self,
        before: &'a [Declaration],
        name: Name,
    ) -> Result<(&'a Part, usize), SyntaxFault>
        ensures index { IfOk result (λ p. index_of (names_of self.now.scope) name ≡ Some p.1) }
        ensures part { IfOk result (λ p. slice_get before.now p.1 ≡ Some (part_declaration p.0.now)) }
        ensures within { IfOk result (λ p. p.1 < length before.now) }
    {
        let index = self.scope.index(name)?;
        match before.get(index) {
            Some(Declaration::Part(part)) => Ok((part, index)),
            Some(_) => Err(SyntaxFault::at(Wrong::NoPart, name.offset)),
            None => Err(SyntaxFault::at(Wrong::Unknown, name.offset)),
        }
    }

    // 274 in too many parts, 294 if the bodies of parts that were read become too long, or the uses too many for the text's names.
    fn enter_part(&mut self, part: &Part, offset: usize) -> Result<(), SyntaxFault>
        ensures { self.new.scope ≡ self.old.scope }
    {
        if self.part_depth >= MAX_PART_DEPTH {
            return Err(SyntaxFault::at(Wrong::PartDepth, offset));
        }
        // What all names stand for in the part is found at each use.
        let names = self.scope.name_count() / NAMES_A_WORD;
        let size = part.size.saturating_add(names);
        let Some(left) = self.part_size.checked_sub(size) else {
            return Err(SyntaxFault::at(Wrong::PartSize, offset));
        };
        self.part_size = left;
        self.part_depth = self.part_depth.saturating_add(1);
        Ok(())
    }

    // 293 if the loops of a part nest too deep in those around its use.
    fn check_nesting(&self, body: &Statement, offset: usize) -> Result<(), SyntaxFault>
        ensures { OnOk result (self.now.scope.loops + loops body.now ≤ MAX_DEPTH) }
    {
        let around = usize::from(self.scope.loops);
        if around <= MAX_DEPTH && nests_within(body, MAX_DEPTH - around) {
            return Ok(());
        }
        Err(SyntaxFault::at(Wrong::LoopDepth, offset))
    }

    // A part's name for a node of outside; the nodes that have a name in the part, this one among them. 277 if something else is given,
    // or a node that has one.
    fn give_node(
        &mut self,
        outer: &Scope,
        name: Name,
        argument: &parsed::Expression,
        named: Held,
        held: Held,
    ) -> Result<Held, SyntaxFault>
        requires at { IsAt (view_of self.old.scope) held }
        requires outer { IsInUse (view_of outer.now) }
        requires nodes { outer.now.nodes ≡ self.old.scope.nodes }
        requires named { (i n : ℕ) → get_or (view_of self.old.scope).meanings i Nothing ≡ Node n → holds (nodes_of named) n ≡ true }
        ensures given { OnOk result (IsNodeGiven (names_of outer.now) (names_of self.old.scope) name argument.now (names_of self.new.scope)) }
        ensures at { OnOk result (IsAt (view_of self.new.scope) held) }
        ensures values { OnOk result (self.new.scope.values ≡ self.old.scope.values) }
        ensures nodes { OnOk result (self.new.scope.nodes ≡ self.old.scope.nodes) }
        ensures loops { OnOk result (self.new.scope.loops ≡ self.old.scope.loops) }
        ensures named { IfOk result (λ more. (i n : ℕ) → get_or (view_of self.new.scope).meanings i Nothing ≡ Node n → holds (nodes_of more) n ≡ true) }
    {
        let Form::Named(called) = &argument.form else {
            return Err(SyntaxFault::at(Wrong::NoNode, argument.offset));
        };
        let register = outer.node(*called, held)?;
        self.scope.check_new(name)?;
        if named.holds(register) {
            return Err(SyntaxFault::at(Wrong::SameNode, argument.offset));
        }
        self.scope.declare_alias(name, register)?;
        Ok(named.with(register))
    }

    // A part's name for a value of outside, which the part may change. 277 if something else is given.
    fn give_variable(
        &mut self,
        outer: &Scope,
        name: Name,
        argument: &parsed::Expression,
        held: Held,
    ) -> Result<(), SyntaxFault>
        requires at { IsAt (view_of self.old.scope) held }
        requires outer { IsInUse (view_of outer.now) }
        requires values { outer.now.values ≤ self.old.scope.values }
        ensures given { OnOk result (IsVariableGiven (names_of outer.now) (names_of self.old.scope) name argument.now (names_of self.new.scope)) }
        ensures at { OnOk result (IsAt (view_of self.new.scope) held) }
        ensures values { OnOk result (self.new.scope.values ≡ self.old.scope.values) }
        ensures nodes { OnOk result (self.new.scope.nodes ≡ self.old.scope.nodes) }
        ensures loops { OnOk result (self.new.scope.loops ≡ self.old.scope.loops) }
        ensures named { OnOk result ((i n : ℕ) → get_or (view_of self.new.scope).meanings i Nothing ≡ Node n
            → get_or (view_of self.old.scope).meanings i Nothing ≡ Node n) }
    {
        let Form::Named(called) = &argument.form else {
            return Err(SyntaxFault::at(Wrong::NoValue, argument.offset));
        };
        let register = outer.value(*called)?;
        self.scope.check_new(name)?;
        self.scope.declare_variable(name, register)?;
        Ok(())
    }

    // A part's name for a number of outside: its register, and the number.
    fn give_value(
        &mut self,
        outer: &Scope,
        name: Name,
        argument: &parsed::Expression,
        held: Held,
    ) -> Result<(ValueRegister, Expression), SyntaxFault>
        requires at { IsAt (view_of self.old.scope) held }
        requires outer { IsInUse (view_of outer.now) }
        requires values { outer.now.values ≤ self.old.scope.values }
        ensures given { IfOk result (λ v. IsValueGiven (names_of outer.now) (names_of self.old.scope) name argument.now v.1 (names_of self.new.scope)) }
        ensures register { IfOk result (λ v. v.0 ≡ self.old.scope.values) }
        ensures readable { IfOk result (λ v. IsReadable self.old.scope.values (nodes_of held) v.1) }
        ensures at { OnOk result (IsAt (view_of self.new.scope) held) }
        ensures values { OnOk result (self.new.scope.values ≡ self.old.scope.values + 1) }
        ensures nodes { OnOk result (self.new.scope.nodes ≡ self.old.scope.nodes) }
        ensures loops { OnOk result (self.new.scope.loops ≡ self.old.scope.loops) }
        ensures named { OnOk result ((i n : ℕ) → get_or (view_of self.new.scope).meanings i Nothing ≡ Node n
            → get_or (view_of self.old.scope).meanings i Nothing ≡ Node n) }
    {
        self.scope.check_new(name)?;
        let register = self.scope.next_value(name.offset)?;
        let number = outer.number(self.alloc, argument, held)?;
        check_registers(registers_of(&number, register.index()), argument.offset)?;
        self.scope.declare_value(name, register)?;
        Ok((register, number))
    }

    // The body of a part behind the names that are left to be given: a number is a `let` around the body. 279 if there are more
    // arguments than names, or fewer.
    #[cycle(lowering)]
    fn given(
        &mut self,
        using: Using<'_>,
        readers: &Readers,
        parameters: &[Parameter],
        arguments: &[parsed::Expression],
        named: Held,
        held: Held,
    ) -> Result<Lowered, SyntaxFault>
        requires at { IsAt (view_of self.old.scope) held }
        requires outer { IsInUse (view_of using.outer.now) }
        requires values { using.outer.now.values ≤ self.old.scope.values }
        requires nodes { using.outer.now.nodes ≡ self.old.scope.nodes }
        requires named { (i n : ℕ) → get_or (view_of self.old.scope).meanings i Nothing ≡ Node n → holds (nodes_of named) n ≡ true }
        ensures given { IfOk result (λ l. IsGiven using.entry.before.now readers.now (names_of using.entry.outer.now)
            (names_of self.old.scope) parameters.now arguments.now using.entry.body.now l.0) }
        ensures lowered { IfOk result (λ l. IsLowered (view_of self.old.scope) held l.0 l.1) }
        ensures entering { IfOk result (λ l. IsEntering (before_of held) l.0 l.1) }
    {
        let Some((parameter, parameters)) = parameters.split_first() else {
            if !arguments.is_empty() {
                return Err(SyntaxFault::at(Wrong::Arguments, using.offset));
            }
            return self.block(using.before, readers, using.body, held);
        };
        let Some((argument, arguments)) = arguments.split_first() else {
            return Err(SyntaxFault::at(Wrong::Arguments, using.offset));
        };
        match *parameter {
            Parameter::Node(name) => {
                let named = self.give_node(using.outer, name, argument, named, held)?;
                self.given(using, readers, parameters, arguments, named, held)
            }
            Parameter::Variable(name) => {
                self.give_variable(using.outer, name, argument, held)?;
                self.given(using, readers, parameters, arguments, named, held)
            }
            Parameter::Value(name) => {
                let (register, number) = self.give_value(using.outer, name, argument, held)?;
                let body = self.given(using, readers, parameters, arguments, named, held)?;
                self.let_in(register, number, body, held)
            }
        }
    }

    /// A part where it is used.
    #[cycle(lowering)]
    pub fn used(
        &mut self,
        before: &[Declaration],
        readers: &Readers,
        name: Name,
        arguments: &[parsed::Expression],
        held: Held,
    ) -> Result<Lowered, SyntaxFault>
        requires { IsAt (view_of self.old.scope) held }
        ensures scope { OnOk result (view_of self.new.scope ≡ view_of self.old.scope) }
        ensures named { IfOk result (λ l. IsUsed before.now readers.now (names_of self.old.scope) name arguments.now l.0) }
        ensures lowered { IfOk result (λ l. IsLowered (view_of self.old.scope) held l.0 l.1) }
        ensures entering { IfOk result (λ l. IsEntering (before_of held) l.0 l.1) }
    {
        let (part, index) = self.part(before, name)?;
        self.enter_part(part, name.offset)?;
        let inner = self.scope.inside(self.alloc, index)?;
        let outer = std::mem::replace(&mut self.scope, inner);
        let using = Using {
            outer: &outer,
            before: &before[..index],
            body: &part.body,
            offset: name.offset,
        };
        let inside = readers.in_part();
        let lowered = self.given(
            using,
            &inside,
            &part.parameters,
            arguments,
            Held::NOTHING,
            held,
        )?;
        self.scope = outer;
        self.part_depth = self.part_depth.saturating_sub(1);
        self.check_nesting(&lowered.0, name.offset)?;
        Ok(lowered)
    }
}
