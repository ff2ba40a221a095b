// Statements with blocks, and how a statement ends: each function reads one rule of the grammar. `levels` says how many levels may still be opened.

ghost use Rattle.std.specs.Prelude.{◌≡◌, true, IfOk};
ghost use Rattle.tl_syntax.specs.Statements.{
  IsAction,
  IsQuestion,
  IsOptionalName,
  IsTold,
  IsElsed,
  place_failure,
  failure_of,
  allows_else,
  IsBlock,
  IsStatement,
  IsForm,
  IsLeaving,
  IsOnly,
  AreTwo,
  MayEnd,
  IsOther,
  IsOtherwise,
};

use crate::failure::Failure;
use crate::fault::SyntaxFault;
use crate::parsed::{
    Action, Expression, Form, Leave, Name, Otherwise, Place, Question, Statement, StatementForm,
};
use crate::parser::{Parsed, Parser};
use crate::token::TokenKind;

// Whether the statement may have an `else` of its own.
fn may_have_else(action: &Action) -> bool
    ensures { result ≡ allows_else action.now }
{
    !matches!(
        *action,
        Action::Take { .. }
            | Action::Free(_)
            | Action::Leave(_)
            | Action::Fail(_)
            | Action::BreakWith(_)
    )
}

// How a place can't be locked.
fn lock_failure(place: &Place) -> Failure
    ensures { result ≡ place_failure place.now }
{
    match place {
        Place::Node { .. } => Failure::Node,
        Place::Child(_) | Place::Pair(_, _) => Failure::Child,
    }
}

// How a declaration fails, if the action is one.
fn declaration_failure(action: &Action) -> Option<Failure>
    ensures { result ≡ failure_of action.now }
{
    match action {
        Action::Let { .. } => Some(Failure::Number),
        Action::Lock(place) => Some(lock_failure(place)),
        _ => None,
    }
}

impl<'a> Parser<'a> {
    /// A statement alone.
    pub fn only(&self, offset: usize, form: StatementForm) -> Result<Vec<Statement>, SyntaxFault>
        ensures { IfOk result (λ all. IsOnly offset form all.items) }
    {
        let mut all = Vec::new(self.alloc);
        all.push(Statement { offset, form })?;
        Ok(all)
    }

    // `break;`, `return;` or `fail;` as the only statement of an `else`.
    fn leaving(&self, at: usize, levels: u32) -> Parsed<Vec<Statement>>
        ensures { IfOk result (λ read. IsLeaving self.now.tokens.now levels at read.1 read.0.items) }
    {
        let (action, next) = self.way_out(at, levels)?;
        let after = self.skip(next, TokenKind::Semicolon)?;
        let form = StatementForm::Act(action, None);
        Ok((self.only(self.offset(at), form)?, after))
    }

    /// Two statements that begin at one place.
    pub fn two(
        &self,
        offset: usize,
        first: StatementForm,
        second: StatementForm,
    ) -> Result<Vec<Statement>, SyntaxFault>
        ensures { IfOk result (λ all. AreTwo offset first second all.items) }
    {
        let mut all = self.only(offset, first)?;
        all.push(Statement {
            offset,
            form: second,
        })?;
        Ok(all)
    }

    // The name has the number of the failure in the body.
    fn told(
        &self,
        why: Name,
        failure: Failure,
        body: Vec<Statement>,
    ) -> Result<Vec<Statement>, SyntaxFault>
        ensures { IfOk result (λ all. IsTold why failure body all.items) }
    {
        let offset = why.offset;
        let form = Form::Number(i64::from(failure.code()));
        let value = Expression { offset, form };
        let name = StatementForm::Act(Action::Let { name: why, value }, None);
        self.two(offset, name, StatementForm::Block(body))
    }

    // An action that begins at the offset, with its `else`. With a name for the failure's code, which is known of a declaration, an
    // action is the only statement of a `try`.
    fn handled(
        &self,
        offset: usize,
        action: Action,
        why: Option<Name>,
        otherwise: Otherwise,
    ) -> Result<StatementForm, SyntaxFault>
        ensures { IfOk result (IsElsed offset action why otherwise) }
    {
        let Some(name) = why else {
            return Ok(StatementForm::Act(action, Some(otherwise)));
        };
        let Otherwise {
            offset: place,
            body,
        } = otherwise;
        let Some(failure) = declaration_failure(&action) else {
            let attempt = self.only(offset, StatementForm::Act(action, None))?;
            return Ok(StatementForm::Try(why, attempt, body));
        };
        let body = self.told(name, failure, body)?;
        let otherwise = Otherwise {
            offset: place,
            body,
        };
        Ok(StatementForm::Act(action, Some(otherwise)))
    }

    // A name in parentheses, if a parenthesis stands here.
    pub fn optional_name(&self, at: usize) -> Parsed<Option<Name>>
        ensures { IfOk result (λ read. IsOptionalName self.now.tokens.now at read.1 read.0) }
    {
        let Some(next) = self.skip_if(at, TokenKind::LeftParenthesis) else {
            return Ok((None, at));
        };
        let (name, at) = self.name(next)?;
        let at = self.skip(at, TokenKind::RightParenthesis)?;
        Ok((Some(name), at))
    }

    /// A block, which opens a level.
    #[cycle(statements)]
    pub fn block(&self, at: usize, levels: u32) -> Parsed<Vec<Statement>>
        ensures { IfOk result (λ read. IsBlock self.now.tokens.now levels at read.1 read.0.items) }
    {
        let mut statements = Vec::new(self.alloc);
        let mut next = self.skip(at, TokenKind::LeftBrace)?;
        let inside = self.open(at, levels)?;
        for _ in 0..self.tokens.len() {
            if let Some(after) = self.skip_if(next, TokenKind::RightBrace) {
                return Ok((statements, after));
            }
            let (statement, after) = self.statement(next, inside)?;
            statements.push(statement)?;
            next = after;
        }
        Err(self.misplaced(next))
    }

    #[cycle(statements)]
    fn statement(&self, at: usize, levels: u32) -> Parsed<Statement>
        ensures { IfOk result (λ read. IsStatement self.now.tokens.now levels at read.1 read.0) }
    {
        let offset = self.offset(at);
        let (form, after) = self.form(at, levels)?;
        Ok((Statement { offset, form }, after))
    }

    #[cycle(statements)]
    fn form(&self, at: usize, levels: u32) -> Parsed<StatementForm>
        ensures { IfOk result (λ read. IsForm self.now.tokens.now levels at read.1 read.0) }
    {
        match self.kind(at) {
            TokenKind::Try => self.attempt(at, levels),
            TokenKind::If => self.choice(at, levels),
            TokenKind::Repeat | TokenKind::For => self.search(at, levels),
            TokenKind::LeftBrace => {
                let (body, after) = self.block(at, levels)?;
                Ok((StatementForm::Block(body), after))
            }
            _ if self.begins_while(at) => self.conditional_loop(at, levels),
            _ => self.act(at, levels),
        }
    }

    #[cycle(statements)]
    fn act(&self, at: usize, levels: u32) -> Parsed<StatementForm>
        ensures { IfOk result (λ read. IsForm self.now.tokens.now levels at read.1 read.0) }
    {
        let (action, next) = self.action(at, levels)?;
        if may_have_else(&action) {
            return self.ended(at, action, next, levels);
        }
        let after = self.skip(next, TokenKind::Semicolon)?;
        Ok((StatementForm::Act(action, None), after))
    }

    // An action that begins at `begin` and may have an `else`, up to its end.
    #[cycle(statements)]
    fn ended(&self, begin: usize, action: Action, at: usize, levels: u32) -> Parsed<StatementForm>
        requires read { IsAction self.now.tokens.now levels begin at action }
        requires allowed { allows_else action ≡ true }
        ensures { IfOk result (λ read. IsForm self.now.tokens.now levels begin read.1 read.0) }
    {
        let offset = self.offset(begin);
        if self.kind(at) == TokenKind::Else {
            let ((why, otherwise), after) = self.otherwise(at, levels)?;
            let form = self.handled(offset, action, why, otherwise)?;
            return Ok((form, after));
        }
        let after = self.skip(at, TokenKind::Semicolon)?;
        Ok((StatementForm::Act(action, None), after))
    }

    // The `else` of a statement, and the name that has the failure's code in it.
    #[cycle(statements)]
    fn otherwise(&self, at: usize, levels: u32) -> Parsed<(Option<Name>, Otherwise)>
        ensures { IfOk result (λ read. IsOtherwise self.now.tokens.now levels at read.1 read.0.0 read.0.1) }
    {
        let next = self.skip(at, TokenKind::Else)?;
        let offset = self.offset(at);
        if self.begins_block(next) {
            let (why, next) = self.optional_name(next)?;
            let (body, after) = self.block(next, levels)?;
            let after = self.may_end(after);
            return Ok(((why, Otherwise { offset, body }), after));
        }
        let (body, after) = self.leaving(next, levels)?;
        Ok(((None, Otherwise { offset, body }), after))
    }

    // Whether a block stands here, or a name in parentheses.
    fn begins_block(&self, at: usize) -> bool {
        matches!(
            self.kind(at),
            TokenKind::LeftBrace | TokenKind::LeftParenthesis
        )
    }

    #[cycle(statements)]
    fn attempt(&self, at: usize, levels: u32) -> Parsed<StatementForm>
        ensures { IfOk result (λ read. IsForm self.now.tokens.now levels at read.1 read.0) }
    {
        let at = self.skip(at, TokenKind::Try)?;
        let (body, at) = self.block(at, levels)?;
        let at = self.skip(at, TokenKind::Else)?;
        let (why, at) = self.optional_name(at)?;
        let (otherwise, at) = self.block(at, levels)?;
        Ok((StatementForm::Try(why, body, otherwise), at))
    }

    fn question(&self, at: usize, levels: u32) -> Parsed<Question>
        ensures { IfOk result (λ read. IsQuestion self.now.tokens.now levels at read.1 read.0) }
    {
        if let Some(next) = self.skip_if(at, TokenKind::Lock) {
            let (place, at) = self.place(next, levels)?;
            return Ok((Question::Lock(place), at));
        }
        let (condition, at) = self.expression(at, levels)?;
        Ok((Question::Condition(condition), at))
    }

    // An `if`, which opens a level.
    #[cycle(statements)]
    fn choice(&self, at: usize, levels: u32) -> Parsed<StatementForm>
        ensures { IfOk result (λ read. IsForm self.now.tokens.now levels at read.1 read.0) }
    {
        let levels = self.open(at, levels)?;
        let at = self.skip(at, TokenKind::If)?;
        let (question, at) = self.question(at, levels)?;
        let (body, at) = self.block(at, levels)?;
        let Some(next) = self.skip_if(at, TokenKind::Else) else {
            let nothing = Vec::new(self.alloc);
            return Ok((StatementForm::If(question, body, nothing), at));
        };
        let (otherwise, after) = self.other(next, levels)?;
        Ok((StatementForm::If(question, body, otherwise), after))
    }

    // What stands behind the `else` of an `if`: a block, or another `if`.
    #[cycle(statements)]
    fn other(&self, at: usize, levels: u32) -> Parsed<Vec<Statement>>
        ensures { IfOk result (λ read. IsOther self.now.tokens.now levels at read.1 read.0.items) }
    {
        if self.kind(at) == TokenKind::If {
            let offset = self.offset(at);
            let (form, after) = self.choice(at, levels)?;
            return Ok((self.only(offset, form)?, after));
        }
        self.block(at, levels)
    }

    // The index after a semicolon, if one stands there.
    fn may_end(&self, at: usize) -> usize
        ensures { MayEnd self.now.tokens.now at result }
    {
        match self.kind(at) {
            TokenKind::Semicolon => self.behind(at),
            _ => at,
        }
    }
}
