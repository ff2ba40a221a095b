// From a text to its declarations.

ghost use Rattle.std.specs.Prelude.{IfOk};
ghost use Rattle.tl_syntax.specs.Text.{IsText};
ghost use Rattle.tl_syntax.specs.Tokens.{spellings};

use crate::fault::SyntaxFault;
use crate::lexer::{Lexed, lex};
use crate::parsed::Declaration;
use crate::parser::Parser;
use indexmap::IndexSet;
use std::alloc::Global;

/// The declarations of a text, in order, and its names: a symbol is the index of a name.
#[derive(Drop)]
pub struct Syntax<'a> {
    pub declarations: Vec<Declaration>,
    pub names: IndexSet<&'a [u8]>,
}

/// The declarations of a text, or its first fault: faults of tokens anywhere in the text come before faults of grammar.
pub fn parse(alloc: Global, text: &[u8]) -> Result<Syntax<'_>, SyntaxFault>
    ensures { IfOk result (λ read. IsText text.now (spellings read.names.keys) read.declarations.items) }
{
    let Lexed { tokens, names } = lex(alloc, text)?;
    let parser = Parser {
        alloc,
        tokens: &tokens,
    };
    let declarations = parser.declarations()?;
    Ok(Syntax {
        declarations,
        names,
    })
}
