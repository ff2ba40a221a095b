// Loops, and what is done behind them: each function reads one rule of the grammar. `levels` says how many levels may still be opened.

ghost use Rattle.std.specs.Prelude.{◌≡◌, false, IfOk};
ghost use Rattle.tl_syntax.specs.Statements.{
  AreFoundNames,
  BeginsFound,
  IsNotFound,
  IsLoop,
  IsForm,
  IsBoundedLoop,
  RequiresNot,
  IsWhile,
  IsLooped,
};

use crate::failure::Failure;
use crate::fault::SyntaxFault;
use crate::parsed::{Action, Expression, Form, Leave, Name, Question, Statement, StatementForm};
use crate::parser::{Parsed, Parser};
use crate::token::{Symbol, TokenKind};

impl<'a> Parser<'a> {
    /// A loop, and what is done behind it where it is left with numbers, and where it isn't.
    #[cycle(statements)]
    pub fn search(&self, at: usize, levels: u32) -> Parsed<StatementForm>
        ensures { IfOk result (λ read. IsForm self.now.tokens.now levels at read.1 read.0) }
    {
        let offset = self.offset(at);
        let (turns, at) = self.turns(at, levels)?;
        if self.begins_found(at) {
            let next = self.skip_word(at, Symbol::FOUND)?;
            let (names, at) = self.found_names(next)?;
            let (found, at) = self.block(at, levels)?;
            let (otherwise, at) = self.not_found(at, levels)?;
            let turns = self.only(offset, turns)?;
            return Ok((StatementForm::Search(turns, names, found, otherwise), at));
        }
        Ok((turns, at))
    }

    #[cycle(statements)]
    fn turns(&self, at: usize, levels: u32) -> Parsed<StatementForm>
        ensures { IfOk result (λ read. IsLoop self.now.tokens.now levels at read.1 read.0) }
    {
        match self.kind(at) {
            TokenKind::Repeat => self.repetition(at, levels),
            _ => self.visit(at, levels),
        }
    }

    // Whether the word `found` stands here and is no other name.
    fn begins_found(&self, at: usize) -> bool
        ensures { result ≡ false → BeginsFound self.now.tokens.now at → ⊥ }
    {
        self.kind(at) == TokenKind::Name(Symbol::FOUND)
            && self.kind(self.behind(at)) == TokenKind::LeftParenthesis
    }

    // The names for the numbers that a loop is left with, in parentheses.
    fn found_names(&self, at: usize) -> Parsed<Vec<Name>>
        ensures { IfOk result (λ read. AreFoundNames self.now.tokens.now at read.1 read.0.items) }
    {
        let at = self.skip(at, TokenKind::LeftParenthesis)?;
        let (names, at) = self.names(at)?;
        let at = self.skip(at, TokenKind::RightParenthesis)?;
        Ok((names, at))
    }

    // What is done where the loop isn't left with numbers.
    #[cycle(statements)]
    fn not_found(&self, at: usize, levels: u32) -> Parsed<Vec<Statement>>
        ensures { IfOk result (λ read. IsNotFound self.now.tokens.now levels at read.1 read.0.items) }
    {
        match self.kind(at) {
            TokenKind::Else => {
                let next = self.skip(at, TokenKind::Else)?;
                self.block(next, levels)
            }
            _ => Ok((Vec::new(self.alloc), at)),
        }
    }

    /// Whether the word `while` stands here and is no name that is assigned or written.
    pub fn begins_while(&self, at: usize) -> bool {
        self.kind(at) == TokenKind::Name(Symbol::WHILE)
            && !matches!(
                self.kind(self.behind(at)),
                TokenKind::Assign
                    | TokenKind::AddAssign
                    | TokenKind::SubtractAssign
                    | TokenKind::Dot
            )
    }

    #[cycle(statements)]
    fn repetition(&self, at: usize, levels: u32) -> Parsed<StatementForm>
        ensures { IfOk result (λ read. IsLoop self.now.tokens.now levels at read.1 read.0) }
    {
        let at = self.skip(at, TokenKind::Repeat)?;
        let (turns, at) = self.expression(at, levels)?;
        let Some(next) = self.skip_if(at, TokenKind::Name(Symbol::AT)) else {
            let (body, at) = self.block(at, levels)?;
            let form = StatementForm::Repeat {
                turns,
                at_most: None,
                body,
            };
            return Ok((form, at));
        };
        let next = self.skip_word(next, Symbol::MOST)?;
        let (count, next) = self.expression(next, levels)?;
        let (body, after) = self.block(next, levels)?;
        let form = StatementForm::Repeat {
            turns,
            at_most: Some(count),
            body,
        };
        Ok((form, after))
    }

    // A loop that turns as long as the condition holds, as often as the count says at most.
    fn bounded_loop(
        &self,
        offset: usize,
        condition: Expression,
        count: Expression,
        body: Vec<Statement>,
    ) -> Result<StatementForm, SyntaxFault>
        ensures { IfOk result (IsBoundedLoop offset condition count body) }
    {
        let leave = StatementForm::Act(Action::Leave(Leave::Break), None);
        let otherwise = self.only(offset, leave)?;
        let choice = StatementForm::If(Question::Condition(condition), body, otherwise);
        let turn = self.only(offset, choice)?;
        Ok(StatementForm::Repeat {
            turns: count,
            at_most: None,
            body: turn,
        })
    }

    // A statement that fails if the condition that begins here holds. The word `at` follows the condition.
    fn requires_not(
        &self,
        at: usize,
        levels: u32,
        offset: usize,
    ) -> Result<StatementForm, SyntaxFault>
        ensures { IfOk result (RequiresNot self.now.tokens.now levels at offset) }
    {
        let (condition, at) = self.expression(at, levels)?;
        let _behind = self.skip_word(at, Symbol::AT)?;
        let boxed = Box::new(self.alloc, condition)?;
        let form = Form::Not(boxed);
        let negation = Expression { offset, form };
        let form = Form::Number(i64::from(Failure::Bound.code()));
        let code = Expression { offset, form };
        Ok(StatementForm::Act(Action::Require(negation, Some(code)), None))
    }

    // The condition of a `while`, and how often it turns at most.
    fn while_head(&self, at: usize, levels: u32) -> Parsed<(Expression, Expression)>
        ensures { IfOk result (λ read. IsWhile self.now.tokens.now levels at read.1 read.0.0 read.0.1) }
    {
        let (condition, at) = self.expression(at, levels)?;
        let at = self.skip_word(at, Symbol::AT)?;
        let at = self.skip_word(at, Symbol::MOST)?;
        let (count, at) = self.expression(at, levels)?;
        Ok(((condition, count), at))
    }

    // The loop of a `while` whose condition begins here, and a statement behind it that fails if the condition holds.
    fn looped(
        &self,
        at: usize,
        levels: u32,
        offset: usize,
        head: (Expression, Expression),
        body: Vec<Statement>,
    ) -> Result<Vec<Statement>, SyntaxFault>
        ensures { IfOk result (λ all. IsLooped self.now.tokens.now levels at offset head.0 head.1 body all.items) }
    {
        let (condition, count) = head;
        let repetition = self.bounded_loop(offset, condition, count, body)?;
        let check = self.requires_not(at, levels, offset)?;
        self.two(offset, repetition, check)
    }

    /// A `while`, which opens a level.
    #[cycle(statements)]
    pub fn conditional_loop(&self, at: usize, levels: u32) -> Parsed<StatementForm>
        ensures { IfOk result (λ read. IsForm self.now.tokens.now levels at read.1 read.0) }
    {
        let offset = self.offset(at);
        let levels = self.open(at, levels)?;
        let start = self.skip_word(at, Symbol::WHILE)?;
        let (head, at) = self.while_head(start, levels)?;
        let (body, after) = self.block(at, levels)?;
        let all = self.looped(start, levels, offset, head, body)?;
        Ok((StatementForm::Block(all), after))
    }

    #[cycle(statements)]
    fn visit(&self, at: usize, levels: u32) -> Parsed<StatementForm>
        ensures { IfOk result (λ read. IsLoop self.now.tokens.now levels at read.1 read.0) }
    {
        let at = self.skip(at, TokenKind::For)?;
        let at = self.skip_word(at, Symbol::EACH)?;
        let at = self.skip(at, TokenKind::Child)?;
        let (child, at) = self.name(at)?;
        let (index, at) = self.optional_name(at)?;
        let at = self.skip_word(at, Symbol::OF)?;
        let (parent, at) = self.name(at)?;
        let at = self.skip_word(at, Symbol::AT)?;
        let at = self.skip_word(at, Symbol::MOST)?;
        let (at_most, at) = self.expression(at, levels)?;
        let (body, at) = self.block(at, levels)?;
        let form = StatementForm::ForEach {
            child,
            index,
            parent,
            at_most,
            body,
        };
        Ok((form, at))
    }
}
