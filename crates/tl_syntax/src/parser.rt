// The parser's input: tokens, one after another.

ghost use Rattle.std.specs.Prelude.{◌≡◌, ◌≢◌, suc, ◌+◌, ◌≤◌, length, IfOk, IfSome, IfNone};
ghost use Rattle.tl_syntax.specs.Grammar.{kind_at, offset_at, Stands, IsName, IsNumber, IsNegative, IsNoNumber};

use crate::fault::{SyntaxFault, Wrong};
use crate::parsed::Name;
use crate::token::{Symbol, Token, TokenKind};
use std::alloc::Global;

/// How many levels may be open at once.
pub const MAX_LEVELS: u32 = 64;

/// The result of reading, and the index of the token after it.
pub type Parsed<T> = Result<(T, usize), SyntaxFault>;

/// The tokens of a text.
#[derive(Clone, Copy)]
pub struct Parser<'a> {
    pub alloc: Global,
    pub tokens: &'a [Token],
}

impl<'a> Parser<'a> {
    /// The kind of the token; after the last token this is the end.
    #[tactic(auto, unfolding(crate::specs::Grammar::kind_at))]
    pub fn kind(&self, at: usize) -> TokenKind
        ensures { result ≡ kind_at self.now.tokens.now at }
    {
        match self.tokens.get(at) {
            Some(token) => token.kind,
            None => TokenKind::End,
        }
    }

    /// The index after the token.
    #[tactic(auto, unfolding(crate::specs::Grammar::kind_at))]
    pub fn behind(&self, at: usize) -> usize
        ensures { kind_at self.now.tokens.now at ≢ TokenKind.End → result ≡ at + 1 }
    {
        at.saturating_add(1)
    }

    /// The offset of the token.
    #[tactic(auto, unfolding(crate::specs::Grammar::offset_at))]
    pub fn offset(&self, at: usize) -> usize
        ensures { result ≡ offset_at self.now.tokens.now at }
    {
        match self.tokens.get(at).or(self.tokens.last()) {
            Some(token) => token.offset,
            None => 0,
        }
    }

    /// 273 at the token.
    pub fn misplaced(&self, at: usize) -> SyntaxFault {
        SyntaxFault::at(Wrong::Misplaced, self.offset(at))
    }

    // 273 at the token: another one of that kind is wanted.
    fn wanted(&self, at: usize, kind: TokenKind) -> SyntaxFault {
        let wrong = match kind {
            TokenKind::Semicolon => Wrong::NoSemicolon,
            TokenKind::LeftBrace => Wrong::NoBlock,
            TokenKind::RightParenthesis => Wrong::Unclosed,
            TokenKind::Else => Wrong::NoElse,
            TokenKind::Name(word) if word == Symbol::AT || word == Symbol::MOST => Wrong::NoBound,
            _ => Wrong::Misplaced,
        };
        SyntaxFault::at(wrong, self.offset(at))
    }

    /// The index after the token, if the token is of that kind.
    pub fn skip_if(&self, at: usize, kind: TokenKind) -> Option<usize>
        ensures { IfSome result (λ next. Stands self.now.tokens.now kind at next) }
    {
        if at >= self.tokens.len() {
            return None;
        }
        if self.kind(at) == kind {
            Some(at + 1)
        } else {
            None
        }
    }

    /// The index after the token. 273 if the token isn't of that kind.
    pub fn skip(&self, at: usize, kind: TokenKind) -> Result<usize, SyntaxFault>
        ensures { IfOk result (λ next. Stands self.now.tokens.now kind at next) }
    {
        match self.skip_if(at, kind) {
            Some(next) => Ok(next),
            None => Err(self.wanted(at, kind)),
        }
    }

    /// The index after a word of the grammar that may also be a name. 273 if another token stands there.
    pub fn skip_word(&self, at: usize, word: Symbol) -> Result<usize, SyntaxFault>
        ensures { IfOk result (λ next. Stands self.now.tokens.now (TokenKind.Name word) at next) }
    {
        self.skip(at, TokenKind::Name(word))
    }

    #[tactic(auto, unfolding(crate::specs::Grammar::kind_at, crate::specs::Grammar::offset_at))]
    pub fn name(&self, at: usize) -> Parsed<Name>
        ensures { IfOk result (λ read. IsName self.now.tokens.now at read.1 read.0) }
    {
        match self.tokens.get(at) {
            Some(
                Token {
                    kind: TokenKind::Name(symbol),
                    offset,
                },
            ) => Ok((
                Name {
                    symbol: *symbol,
                    offset: *offset,
                },
                at + 1,
            )),
            _ => Err(self.misplaced(at)),
        }
    }

    /// A number that isn't the operand of a minus sign. 271 if it doesn't fit 64 bits, 273 if the token isn't a number.
    #[tactic(auto, unfolding(crate::specs::Grammar::kind_at))]
    pub fn number(&self, at: usize) -> Parsed<i64>
        ensures { IfOk result (λ read. IsNumber self.now.tokens.now at read.1 read.0) }
    {
        match self.tokens.get(at) {
            Some(
                Token {
                    kind: TokenKind::Number(number),
                    offset,
                },
            ) => match i64::try_from(*number) {
                Ok(number) => Ok((number, at + 1)),
                Err(_) => Err(SyntaxFault::at(Wrong::Number, *offset)),
            },
            _ => Err(self.misplaced(at)),
        }
    }

    /// The number directly after a minus sign, negated; None if no number stands there. 271 if it doesn't fit 64 bits.
    pub fn negative(&self, at: usize) -> Result<Option<(i64, usize)>, SyntaxFault>
        ensures some { IfOk result (λ read. IfSome read (λ number. IsNegative self.now.tokens.now at number.1 number.0)) }
        ensures none { IfOk result (λ read. IfNone read (IsNoNumber self.now.tokens.now at)) }
    {
        let next = self.behind(at);
        match self.kind(at) {
            TokenKind::Number(number) => match i64::try_from(-i128::from(number)) {
                Ok(number) => Ok(Some((number, next))),
                Err(_) => Err(SyntaxFault::at(Wrong::Number, self.offset(at))),
            },
            _ => Ok(None),
        }
    }

    /// How many levels are left after the token opens one. 274 if none was left.
    pub fn open(&self, at: usize, levels: u32) -> Result<u32, SyntaxFault>
        ensures { IfOk result (λ left. levels ≡ suc left) }
    {
        match levels.checked_sub(1) {
            Some(left) => Ok(left),
            None => Err(SyntaxFault::at(Wrong::TooDeep, self.offset(at))),
        }
    }
}
