// Fields, constants, parts and procedures: each function reads one rule of the grammar.

ghost use Rattle.std.specs.Prelude.{◌≡◌, ◌≢◌, IfOk, OnOk};
ghost use Rattle.tl_syntax.specs.Grammar.{kind_at, IsName};
ghost use Rattle.tl_syntax.specs.Statements.{word_while, word_found, AreNames};
ghost use Rattle.tl_syntax.specs.Declarations.{
  AreArguments,
  IsMark,
  IsProcedure,
  names_something,
  IsParameter,
  AreParameters,
  AreTaken,
  HasNoReturn,
  IsPart,
  IsDeclaration,
  IsFile,
};

use crate::fault::{SyntaxFault, Wrong};
use crate::parsed::{Declaration, Name, Parameter, Part, Procedure};
use crate::parser::{MAX_LEVELS, Parsed, Parser};
use crate::token::{Symbol, TokenKind};

impl<'a> Parser<'a> {
    fn field(&self, at: usize) -> Parsed<Declaration>
        ensures { IfOk result (λ read. IsDeclaration self.now.tokens.now at read.1 read.0) }
    {
        let at = self.skip(at, TokenKind::Field)?;
        let (name, at) = self.name(at)?;
        let at = self.skip(at, TokenKind::Assign)?;
        let (number, at) = self.expression(at, MAX_LEVELS)?;
        let at = self.skip(at, TokenKind::Semicolon)?;
        Ok((Declaration::Field { name, number }, at))
    }

    fn constant(&self, at: usize) -> Parsed<Declaration>
        ensures { IfOk result (λ read. IsDeclaration self.now.tokens.now at read.1 read.0) }
    {
        let at = self.skip(at, TokenKind::Const)?;
        let (name, at) = self.name(at)?;
        let at = self.skip(at, TokenKind::Assign)?;
        let (value, at) = self.expression(at, MAX_LEVELS)?;
        let at = self.skip(at, TokenKind::Semicolon)?;
        Ok((Declaration::Constant { name, value }, at))
    }

    // One name or more, with commas between them.
    pub fn names(&self, at: usize) -> Parsed<Vec<Name>>
        ensures { IfOk result (λ read. AreNames self.now.tokens.now at read.1 read.0.items) }
    {
        let mut names = Vec::new(self.alloc);
        let (name, mut next) = self.name(at)?;
        names.push(name)?;
        for _ in 0..self.tokens.len() {
            let Some(behind) = self.skip_if(next, TokenKind::Comma) else {
                break;
            };
            let (name, after) = self.name(behind)?;
            names.push(name)?;
            next = after;
        }
        Ok((names, next))
    }

    // The names between a procedure's parentheses, and the closing one.
    fn arguments(&self, at: usize) -> Parsed<Vec<Name>>
        ensures { IfOk result (λ read. AreArguments self.now.tokens.now at read.1 read.0.items) }
    {
        if let Some(after) = self.skip_if(at, TokenKind::RightParenthesis) {
            return Ok((Vec::new(self.alloc), after));
        }
        let (names, at) = self.names(at)?;
        let at = self.skip(at, TokenKind::RightParenthesis)?;
        Ok((names, at))
    }

    // Whether a procedure is marked by `atomic`.
    fn mark(&self, at: usize) -> (bool, usize)
        ensures { IsMark self.now.tokens.now at result.1 result.0 }
    {
        let Some(next) = self.skip_if(at, TokenKind::Name(Symbol::ATOMIC)) else {
            return (false, at);
        };
        (true, next)
    }

    fn procedure(&self, at: usize) -> Parsed<Procedure>
        ensures { IfOk result (λ read. IsProcedure self.now.tokens.now at read.1 read.0) }
    {
        let (is_atomic, at) = self.mark(at);
        let at = self.skip(at, TokenKind::Proc)?;
        let (name, at) = self.name(at)?;
        let at = self.skip(at, TokenKind::LeftParenthesis)?;
        let (arguments, at) = self.arguments(at)?;
        let (body, at) = self.block(at, MAX_LEVELS)?;
        let Some(next) = self.skip_if(at, TokenKind::Else) else {
            let nothing = Vec::new(self.alloc);
            let procedure = Procedure {
                is_atomic,
                name,
                arguments,
                body,
                why: None,
                otherwise: nothing,
            };
            return Ok((procedure, at));
        };
        let (why, next) = self.optional_name(next)?;
        let (otherwise, after) = self.block(next, MAX_LEVELS)?;
        let procedure = Procedure {
            is_atomic,
            name,
            arguments,
            body,
            why,
            otherwise,
        };
        Ok((procedure, after))
    }

    // Whether a name stands here.
    fn is_name(&self, at: usize) -> bool
        ensures { result ≡ names_something (kind_at self.now.tokens.now at) }
    {
        matches!(self.kind(at), TokenKind::Name(_))
    }

    // A name for what a part is given. The word `var` before a name says that the part may change it.
    fn parameter(&self, at: usize) -> Parsed<Parameter>
        ensures { IfOk result (λ read. IsParameter self.now.tokens.now at read.1 read.0) }
    {
        if let Some(next) = self.skip_if(at, TokenKind::Node) {
            let (name, at) = self.name(next)?;
            return Ok((Parameter::Node(name), at));
        }
        let (name, next) = self.name(at)?;
        if self.is_name(next) {
            if name.symbol != Symbol::VAR {
                return Err(self.misplaced(next));
            }
            let after = self.skip_word(at, Symbol::VAR)?;
            let (name, after) = self.name(after)?;
            return Ok((Parameter::Variable(name), after));
        }
        Ok((Parameter::Value(name), next))
    }

    // One parameter or more, with commas between them.
    fn parameters(&self, at: usize) -> Parsed<Vec<Parameter>>
        ensures { IfOk result (λ read. AreParameters self.now.tokens.now at read.1 read.0.items) }
    {
        let mut parameters = Vec::new(self.alloc);
        let (parameter, mut next) = self.parameter(at)?;
        parameters.push(parameter)?;
        for _ in 0..self.tokens.len() {
            let Some(behind) = self.skip_if(next, TokenKind::Comma) else {
                break;
            };
            let (parameter, after) = self.parameter(behind)?;
            parameters.push(parameter)?;
            next = after;
        }
        Ok((parameters, next))
    }

    // The parameters between a part's parentheses, and the closing one.
    fn taken(&self, at: usize) -> Parsed<Vec<Parameter>>
        ensures { IfOk result (λ read. AreTaken self.now.tokens.now at read.1 read.0.items) }
    {
        if let Some(after) = self.skip_if(at, TokenKind::RightParenthesis) {
            return Ok((Vec::new(self.alloc), after));
        }
        let (parameters, at) = self.parameters(at)?;
        let at = self.skip(at, TokenKind::RightParenthesis)?;
        Ok((parameters, at))
    }

    // 273 at the first `return` among these tokens.
    fn check_returns(&self, from: usize, to: usize) -> Result<(), SyntaxFault>
        ensures { OnOk result (HasNoReturn self.now.tokens.now from to) }
    {
        for at in from..to {
            if self.kind(at) == TokenKind::Return {
                return Err(SyntaxFault::at(Wrong::PartReturns, self.offset(at)));
            }
        }
        Ok(())
    }

    // The name of a part. No part is named `while` or `found`: these words before a parenthesis belong to loops.
    fn part_name(&self, at: usize) -> Parsed<Name>
        ensures read { IfOk result (λ read. IsName self.now.tokens.now at read.1 read.0) }
        ensures no_loop { IfOk result (λ read. TokenKind.Name read.0.symbol ≢ word_while) }
        ensures no_found { IfOk result (λ read. TokenKind.Name read.0.symbol ≢ word_found) }
    {
        let (name, after) = self.name(at)?;
        if name.symbol == Symbol::WHILE || name.symbol == Symbol::FOUND {
            return Err(SyntaxFault::at(Wrong::PartName, name.offset));
        }
        Ok((name, after))
    }

    fn part(&self, at: usize) -> Parsed<Part>
        ensures { IfOk result (λ read. IsPart self.now.tokens.now at read.1 read.0) }
    {
        let at = self.skip_word(at, Symbol::PART)?;
        let (name, at) = self.part_name(at)?;
        let at = self.skip(at, TokenKind::LeftParenthesis)?;
        let (parameters, at) = self.taken(at)?;
        let (body, after) = self.block(at, MAX_LEVELS)?;
        self.check_returns(at, after)?;
        let size = after.saturating_sub(at);
        let part = Part {
            name,
            parameters,
            body,
            size,
        };
        Ok((part, after))
    }

    fn declaration(&self, at: usize) -> Parsed<Declaration>
        ensures { IfOk result (λ read. IsDeclaration self.now.tokens.now at read.1 read.0) }
    {
        match self.kind(at) {
            TokenKind::Field => self.field(at),
            TokenKind::Const => self.constant(at),
            TokenKind::Name(Symbol::PART) => {
                let (part, after) = self.part(at)?;
                Ok((Declaration::Part(part), after))
            }
            _ => {
                let (procedure, after) = self.procedure(at)?;
                Ok((Declaration::Procedure(procedure), after))
            }
        }
    }

    /// All that a text declares, in order.
    pub fn declarations(&self) -> Result<Vec<Declaration>, SyntaxFault>
        ensures { IfOk result (λ read. IsFile self.now.tokens.now read.items) }
    {
        let mut declarations = Vec::new(self.alloc);
        let mut at = 0;
        for _ in 0..self.tokens.len() {
            if self.kind(at) == TokenKind::End {
                return Ok(declarations);
            }
            let (declaration, after) = self.declaration(at)?;
            declarations.push(declaration)?;
            at = after;
        }
        Err(self.misplaced(at))
    }
}
