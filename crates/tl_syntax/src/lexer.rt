// From bytes to tokens.

ghost use Rattle.std.specs.Prelude.{◌≡◌, ℕ, List, ◌<◌, ◌≤◌, length, [], ◌∷◌, ◌++◌, IfSome, IfOk, OnOk};
ghost use Rattle.tl_syntax.specs.Tokens.{
  word_left,
  line_left,
  Begins,
  spellings,
  first_names,
  AreDistinct,
  Extends,
  AreNamesOf,
  Adds,
  AreTokens,
};

use crate::fault::{SyntaxFault, Wrong};
use crate::token::{Symbol, Token, TokenKind};
use crate::words::{
    MAX_NAME, begins_name, continues_name, is_blank, long_sign, number, reserved, short_sign,
};
use indexmap::IndexSet;
use std::alloc::Global;

/// The tokens of a text, followed by an end token, and its names.
#[derive(Drop)]
pub struct Lexed<'a> {
    pub tokens: Vec<Token>,
    pub names: IndexSet<&'a [u8]>,
}

/// The kind of a piece of text.
#[derive(Clone, Copy)]
enum Piece {
    Blank,
    Word,
    Digits,
    Sign(TokenKind),
}

// How many of the first bytes can continue a name or a number.
fn word_length(rest: &[u8]) -> usize
    ensures left { result ≡ word_left rest.now }
    ensures within { result ≤ length rest.now }
{
    rest.iter()
        .position(|byte| !continues_name(*byte))
        .unwrap_or(rest.len())
}

// The length of the line, without its line end.
fn line_length(rest: &[u8]) -> usize
    ensures left { result ≡ line_left rest.now }
    ensures within { result ≤ length rest.now }
{
    rest.iter()
        .position(|byte| *byte == b'\n')
        .unwrap_or(rest.len())
}

// The first piece of a text, and how many bytes after the first one belong to it. None if no token begins like that.
fn first_piece(first: u8, after: &[u8]) -> Option<(Piece, usize)>
    ensures begins { IfSome result (λ p. Begins first after.now p.0 p.1) }
    ensures within { IfSome result (λ p. p.1 ≤ length after.now) }
{
    if is_blank(first) {
        return Some((Piece::Blank, 0));
    }
    if begins_name(first) {
        return Some((Piece::Word, word_length(after)));
    }
    if first.is_ascii_digit() {
        return Some((Piece::Digits, word_length(after)));
    }
    if let Some(second) = after.first() {
        if first == b'/' && *second == b'/' {
            return Some((Piece::Blank, line_length(after)));
        }
        if let Some(kind) = long_sign(first, *second) {
            return Some((Piece::Sign(kind), 1));
        }
    }
    let kind = short_sign(first)?;
    Some((Piece::Sign(kind), 0))
}

impl<'a> Lexed<'a> {
    // The grammar's words that may also be names get the first numbers.
    fn new(alloc: Global) -> Result<Lexed<'a>, SyntaxFault>
        ensures names { IfOk result (λ lexed. spellings lexed.names.keys ≡ first_names) }
        ensures distinct { IfOk result (λ lexed. AreDistinct (spellings lexed.names.keys)) }
        ensures tokens { IfOk result (λ lexed. lexed.tokens.items ≡ []) }
    {
        let mut names = IndexSet::new(alloc);
        names.insert(b"at".as_slice())?;
        names.insert(b"each".as_slice())?;
        names.insert(b"most".as_slice())?;
        names.insert(b"of".as_slice())?;
        names.insert(b"to".as_slice())?;
        names.insert(b"atomic".as_slice())?;
        names.insert(b"while".as_slice())?;
        names.insert(b"part".as_slice())?;
        names.insert(b"var".as_slice())?;
        names.insert(b"with".as_slice())?;
        names.insert(b"found".as_slice())?;
        Ok(Lexed {
            tokens: Vec::new(alloc),
            names,
        })
    }

    // Adds a token.
    fn push(&mut self, kind: TokenKind, offset: usize) -> Result<(), SyntaxFault>
        ensures tokens { OnOk result (self.new.tokens.items ≡ self.old.tokens.items ++ (record { kind = kind; offset = offset }) ∷ []) }
        ensures names { self.new.names.keys ≡ self.old.names.keys }
    {
        self.tokens.push(Token { kind, offset })?;
        Ok(())
    }

    fn push_word(&mut self, word: &'a [u8], offset: usize) -> Result<(), SyntaxFault>
        ensures adds { OnOk result (Adds word.now offset (spellings self.old.names.keys) (spellings self.new.names.keys)
            self.old.tokens.items self.new.tokens.items Piece.Word) }
        ensures distinct { OnOk result (AreDistinct (spellings self.old.names.keys) → AreDistinct (spellings self.new.names.keys)) }
        ensures numbered { OnOk result (AreNamesOf self.old.tokens.items (spellings self.old.names.keys) →
            AreNamesOf self.new.tokens.items (spellings self.new.names.keys)) }
    {
        if let Some(kind) = reserved(word) {
            self.push(kind, offset)?;
            return Ok(());
        }
        if word.len() > MAX_NAME {
            return Err(SyntaxFault::at(Wrong::LongName, offset));
        }
        let (index, _) = self.names.insert_full(word)?;
        self.push(TokenKind::Name(Symbol(index)), offset)?;
        Ok(())
    }

    fn push_number(&mut self, word: &[u8], offset: usize) -> Result<(), SyntaxFault>
        ensures adds { OnOk result (Adds word.now offset (spellings self.old.names.keys) (spellings self.new.names.keys)
            self.old.tokens.items self.new.tokens.items Piece.Digits) }
        ensures distinct { OnOk result (AreDistinct (spellings self.old.names.keys) → AreDistinct (spellings self.new.names.keys)) }
        ensures numbered { OnOk result (AreNamesOf self.old.tokens.items (spellings self.old.names.keys) →
            AreNamesOf self.new.tokens.items (spellings self.new.names.keys)) }
    {
        match number(word) {
            Some(number) => {
                self.push(TokenKind::Number(number), offset)?;
                Ok(())
            }
            None => Err(SyntaxFault::at(Wrong::Number, offset)),
        }
    }

    // Adds the token that a piece is, if it is one.
    fn add(&mut self, piece: Piece, word: &'a [u8], offset: usize) -> Result<(), SyntaxFault>
        ensures adds { OnOk result (Adds word.now offset (spellings self.old.names.keys) (spellings self.new.names.keys)
            self.old.tokens.items self.new.tokens.items piece) }
        ensures distinct { OnOk result (AreDistinct (spellings self.old.names.keys) → AreDistinct (spellings self.new.names.keys)) }
        ensures numbered { OnOk result ((first : ℕ) (after : List ℕ) (n : ℕ) → Begins first after piece n → AreNamesOf self.old.tokens.items (spellings self.old.names.keys) →
            AreNamesOf self.new.tokens.items (spellings self.new.names.keys)) }
    {
        match piece {
            Piece::Blank => Ok(()),
            Piece::Word => self.push_word(word, offset),
            Piece::Digits => self.push_number(word, offset),
            Piece::Sign(kind) => {
                self.push(kind, offset)?;
                Ok(())
            }
        }
    }
}

/// The tokens of a text. 270, 271 or 272 at the first piece that isn't a token.
pub fn lex(alloc: Global, text: &[u8]) -> Result<Lexed<'_>, SyntaxFault>
    ensures tokens { IfOk result (λ lexed. AreTokens (spellings lexed.names.keys) 0 text.now lexed.tokens.items) }
    ensures names { IfOk result (λ lexed. Extends first_names (spellings lexed.names.keys)) }
    ensures distinct { IfOk result (λ lexed. AreDistinct (spellings lexed.names.keys)) }
    ensures numbered { IfOk result (λ lexed. AreNamesOf lexed.tokens.items (spellings lexed.names.keys)) }
{
    let mut lexed = Lexed::new(alloc)?;
    let mut rest = text;
    while let Some((first, after)) = rest.split_first() {
        let offset = text.len() - rest.len();
        let Some((piece, more)) = first_piece(*first, after) else {
            return Err(SyntaxFault::at(Wrong::Character, offset));
        };
        let (word, _) = rest.split_at(more + 1);
        let (_, remaining) = after.split_at(more);
        lexed.add(piece, word, offset)?;
        rest = remaining;
    }
    lexed.push(TokenKind::End, text.len())?;
    Ok(lexed)
}
