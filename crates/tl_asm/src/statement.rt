//! What a line says.

ghost use Rattle.std.specs.Prelude.{IfSome};
ghost use Rattle.tl_asm.specs.Statements.{said_in, shown, says, IsSaid};
ghost use Rattle.tl_asm.specs.Words.{Finds};

use crate::draft::Draft;
use crate::reading::{self, only_word};
use crate::token;
use crate::word::{next_word, without_comment};

#[derive(Clone, Copy, Debug)]
pub enum Statement<'a> {
    Blank,
    /// The text is of the second version of the language.
    Version2,
    /// How many arguments the procedure takes.
    Takes(u8),
    /// The label of the next position.
    Names(&'a [u8]),
    Does(Draft<'a>),
}

/// What the line says, if it has one of these forms.
#[tactic(auto, unfolding(crate::specs::Statements::said_in))]
pub fn statement_of(line: &[u8]) -> Option<Statement<'_>>
    ensures found { Finds shown result (says line.now) }
    ensures in_range { IfSome result (λ s. IsSaid (shown s)) }
{
    let Some((name, rest)) = next_word(without_comment(line)) else {
        return Some(Statement::Blank);
    };
    if name == b"version".as_slice() {
        if only_word(rest)? != b"2".as_slice() {
            return None;
        }
        return Some(Statement::Version2);
    }
    if name == b"arity".as_slice() {
        let arity = token::arity(only_word(rest)?)?;
        return Some(Statement::Takes(arity.number()));
    }
    if let Some((b':', label)) = name.split_last() {
        if next_word(rest).is_some() || !token::is_label(label) {
            return None;
        }
        return Some(Statement::Names(label));
    }
    let Some(draft) = reading::draft(name, rest) else {
        return None;
    };
    Some(Statement::Does(draft))
}
