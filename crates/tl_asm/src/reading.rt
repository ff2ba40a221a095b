//! Reads a line's words as an instruction.

ghost use Rattle.std.specs.Prelude.{◌≡◌, IfSome};
ghost use Rattle.tl_width.specs.Fields.{field_count};
ghost use Rattle.tl_instr.specs.declared.version.Version.TheVariants.{Two};
ghost use Rattle.tl_instr.specs.Instructions.{GoesWithin, IsInstr};
ghost use Rattle.tl_asm.specs.Words.{words_of, Finds};
ghost use Rattle.tl_asm.specs.Tokens.{number_in, value_register, node_register, signed_in};
ghost use Rattle.tl_asm.specs.Statements.{view, token, only_of, last, label_in, else_in, otherwise_in, bare_in, set_in, copy_in, arithmetic_in, add_in, subtract_in, multiply_in, divide_in, jump_in, comparison_in, jump_if_less_in, jump_if_equal_in, repeat_in, repeat_by_in, first_in, child_in, move_in, release_in, get_in, put_in, kids_in, emit_in, draft_in};

use crate::draft::Draft;
use crate::token;
use crate::word::next_word;
use tl_instr::{Field, Instr, NodeRegister, ValueRegister};

fn value(line: &[u8]) -> Option<(ValueRegister, &[u8])>
    ensures { Finds (λ x. (x.0, words_of x.1.now)) result (token value_register (words_of line.now)) }
{
    let (word, rest) = next_word(line)?;
    Some((token::value_register(word)?, rest))
}

fn node(line: &[u8]) -> Option<(NodeRegister, &[u8])>
    ensures { Finds (λ x. (x.0, words_of x.1.now)) result (token node_register (words_of line.now)) }
{
    let (word, rest) = next_word(line)?;
    Some((token::node_register(word)?, rest))
}

fn field(line: &[u8]) -> Option<(Field, &[u8])>
    ensures { Finds (λ x. (x.0, words_of x.1.now)) result (token (number_in field_count) (words_of line.now)) }
{
    let (word, rest) = next_word(line)?;
    Some((token::field(word)?, rest))
}

/// The only word of the line, if it has just one.
pub fn only_word(line: &[u8]) -> Option<&[u8]>
    ensures { Finds (λ x. x.now) result (only_of (words_of line.now)) }
{
    let (word, rest) = next_word(line)?;
    if next_word(rest).is_some() {
        return None;
    }
    Some(word)
}

/// The label that is the only word of the line.
fn label(line: &[u8]) -> Option<&[u8]>
    ensures { Finds (λ x. x.now) result (last label_in (words_of line.now)) }
{
    let word = only_word(line)?;
    if token::is_label(word) {
        Some(word)
    } else {
        None
    }
}

/// `else`, and a label.
#[tactic(auto, unfolding(crate::specs::Statements::otherwise_in))]
fn otherwise(line: &[u8]) -> Option<&[u8]>
    ensures { Finds (λ x. x.now) result (otherwise_in (words_of line.now)) }
{
    let (word, rest) = next_word(line)?;
    if word != b"else".as_slice() {
        return None;
    }
    label(rest)
}

/// An instruction without operands.
#[tactic(auto, unfolding(crate::specs::Statements::bare_in))]
fn bare(instr: Instr, line: &[u8]) -> Option<Draft<'_>>
    requires { GoesWithin 0 instr }
    ensures found { Finds view result (bare_in instr (words_of line.now)) }
    ensures in_range { IfSome result (λ d. IsInstr Two 0 d.instr) }
{
    if next_word(line).is_some() {
        return None;
    }
    Some(Draft { instr, label: None })
}

#[tactic(auto, unfolding(crate::specs::Statements::set_in))]
fn set(line: &[u8]) -> Option<Draft<'_>>
    ensures found { Finds view result (set_in (words_of line.now)) }
    ensures in_range { IfSome result (λ d. IsInstr Two 0 d.instr) }
{
    let Some((to, rest)) = value(line) else {
        return None;
    };
    let number = token::signed(only_word(rest)?)?;
    Some(Draft {
        instr: Instr::Set { to, number },
        label: None,
    })
}

#[tactic(auto, unfolding(crate::specs::Statements::copy_in))]
fn copy(line: &[u8]) -> Option<Draft<'_>>
    ensures found { Finds view result (copy_in (words_of line.now)) }
    ensures in_range { IfSome result (λ d. IsInstr Two 0 d.instr) }
{
    let Some((to, rest)) = value(line) else {
        return None;
    };
    let from = token::value_register(only_word(rest)?)?;
    Some(Draft {
        instr: Instr::Copy { to, from },
        label: None,
    })
}

/// Three value registers, and a label for a result that doesn't fit.
#[tactic(auto, unfolding(crate::specs::Statements::arithmetic_in))]
fn arithmetic(line: &[u8]) -> Option<(ValueRegister, ValueRegister, ValueRegister, &[u8])>
    ensures { Finds (λ x. (x.0, x.1, x.2, x.3.now)) result (arithmetic_in (words_of line.now)) }
{
    let Some((to, rest)) = value(line) else {
        return None;
    };
    let Some((left, rest)) = value(rest) else {
        return None;
    };
    let Some((right, rest)) = value(rest) else {
        return None;
    };
    let label = otherwise(rest)?;
    Some((to, left, right, label))
}

#[tactic(auto, unfolding(crate::specs::Statements::add_in))]
fn add(line: &[u8]) -> Option<Draft<'_>>
    ensures found { Finds view result (add_in (words_of line.now)) }
    ensures in_range { IfSome result (λ d. IsInstr Two 0 d.instr) }
{
    let Some((to, left, right, label)) = arithmetic(line) else {
        return None;
    };
    Some(Draft {
        instr: Instr::Add {
            to,
            left,
            right,
            otherwise: 0,
        },
        label: Some(label),
    })
}

#[tactic(auto, unfolding(crate::specs::Statements::subtract_in))]
fn subtract(line: &[u8]) -> Option<Draft<'_>>
    ensures found { Finds view result (subtract_in (words_of line.now)) }
    ensures in_range { IfSome result (λ d. IsInstr Two 0 d.instr) }
{
    let Some((to, left, right, label)) = arithmetic(line) else {
        return None;
    };
    Some(Draft {
        instr: Instr::Subtract {
            to,
            left,
            right,
            otherwise: 0,
        },
        label: Some(label),
    })
}

#[tactic(auto, unfolding(crate::specs::Statements::multiply_in))]
fn multiply(line: &[u8]) -> Option<Draft<'_>>
    ensures found { Finds view result (multiply_in (words_of line.now)) }
    ensures in_range { IfSome result (λ d. IsInstr Two 0 d.instr) }
{
    let Some((to, left, right, label)) = arithmetic(line) else {
        return None;
    };
    Some(Draft {
        instr: Instr::Multiply {
            to,
            left,
            right,
            otherwise: 0,
        },
        label: Some(label),
    })
}

#[tactic(auto, unfolding(crate::specs::Statements::divide_in))]
fn divide(line: &[u8]) -> Option<Draft<'_>>
    ensures found { Finds view result (divide_in (words_of line.now)) }
    ensures in_range { IfSome result (λ d. IsInstr Two 0 d.instr) }
{
    let Some((to, left, right, label)) = arithmetic(line) else {
        return None;
    };
    Some(Draft {
        instr: Instr::Divide {
            to,
            left,
            right,
            otherwise: 0,
        },
        label: Some(label),
    })
}

#[tactic(auto, unfolding(crate::specs::Statements::jump_in))]
fn jump(line: &[u8]) -> Option<Draft<'_>>
    ensures found { Finds view result (jump_in (words_of line.now)) }
    ensures in_range { IfSome result (λ d. IsInstr Two 0 d.instr) }
{
    let label = label(line)?;
    Some(Draft {
        instr: Instr::Jump { target: 0 },
        label: Some(label),
    })
}

/// Two value registers, and a label.
#[tactic(auto, unfolding(crate::specs::Statements::comparison_in))]
fn comparison(line: &[u8]) -> Option<(ValueRegister, ValueRegister, &[u8])>
    ensures { Finds (λ x. (x.0, x.1, x.2.now)) result (comparison_in (words_of line.now)) }
{
    let Some((left, rest)) = value(line) else {
        return None;
    };
    let Some((right, rest)) = value(rest) else {
        return None;
    };
    let label = label(rest)?;
    Some((left, right, label))
}

#[tactic(auto, unfolding(crate::specs::Statements::jump_if_less_in))]
fn jump_if_less(line: &[u8]) -> Option<Draft<'_>>
    ensures found { Finds view result (jump_if_less_in (words_of line.now)) }
    ensures in_range { IfSome result (λ d. IsInstr Two 0 d.instr) }
{
    let Some((left, right, label)) = comparison(line) else {
        return None;
    };
    Some(Draft {
        instr: Instr::JumpIfLess {
            left,
            right,
            target: 0,
        },
        label: Some(label),
    })
}

#[tactic(auto, unfolding(crate::specs::Statements::jump_if_equal_in))]
fn jump_if_equal(line: &[u8]) -> Option<Draft<'_>>
    ensures found { Finds view result (jump_if_equal_in (words_of line.now)) }
    ensures in_range { IfSome result (λ d. IsInstr Two 0 d.instr) }
{
    let Some((left, right, label)) = comparison(line) else {
        return None;
    };
    Some(Draft {
        instr: Instr::JumpIfEqual {
            left,
            right,
            target: 0,
        },
        label: Some(label),
    })
}

#[tactic(auto, unfolding(crate::specs::Statements::repeat_in))]
fn repeat(line: &[u8]) -> Option<Draft<'_>>
    ensures found { Finds view result (repeat_in (words_of line.now)) }
    ensures in_range { IfSome result (λ d. IsInstr Two 0 d.instr) }
{
    let count = token::turns(only_word(line)?)?;
    Some(Draft {
        instr: Instr::Repeat { count },
        label: None,
    })
}

#[tactic(auto, unfolding(crate::specs::Statements::repeat_by_in))]
fn repeat_by(line: &[u8]) -> Option<Draft<'_>>
    ensures found { Finds view result (repeat_by_in (words_of line.now)) }
    ensures in_range { IfSome result (λ d. IsInstr Two 0 d.instr) }
{
    let Some((turns, rest)) = value(line) else {
        return None;
    };
    let count = token::turns(only_word(rest)?)?;
    Some(Draft {
        instr: Instr::RepeatBy { turns, count },
        label: None,
    })
}

#[tactic(auto, unfolding(crate::specs::Statements::first_in))]
fn first(line: &[u8]) -> Option<Draft<'_>>
    ensures found { Finds view result (first_in (words_of line.now)) }
    ensures in_range { IfSome result (λ d. IsInstr Two 0 d.instr) }
{
    let Some((to, rest)) = node(line) else {
        return None;
    };
    let Some((number, rest)) = value(rest) else {
        return None;
    };
    let label = otherwise(rest)?;
    Some(Draft {
        instr: Instr::First {
            to,
            number,
            otherwise: 0,
        },
        label: Some(label),
    })
}

#[tactic(auto, unfolding(crate::specs::Statements::child_in))]
fn child(line: &[u8]) -> Option<Draft<'_>>
    ensures found { Finds view result (child_in (words_of line.now)) }
    ensures in_range { IfSome result (λ d. IsInstr Two 0 d.instr) }
{
    let Some((to, rest)) = node(line) else {
        return None;
    };
    let Some((parent, rest)) = node(rest) else {
        return None;
    };
    let Some((number, rest)) = value(rest) else {
        return None;
    };
    let label = otherwise(rest)?;
    Some(Draft {
        instr: Instr::Child {
            to,
            parent,
            number,
            otherwise: 0,
        },
        label: Some(label),
    })
}

#[tactic(auto, unfolding(crate::specs::Statements::move_in))]
fn move_node(line: &[u8]) -> Option<Draft<'_>>
    ensures found { Finds view result (move_in (words_of line.now)) }
    ensures in_range { IfSome result (λ d. IsInstr Two 0 d.instr) }
{
    let Some((to, rest)) = node(line) else {
        return None;
    };
    let from = token::node_register(only_word(rest)?)?;
    Some(Draft {
        instr: Instr::Move { to, from },
        label: None,
    })
}

#[tactic(auto, unfolding(crate::specs::Statements::release_in))]
fn release(line: &[u8]) -> Option<Draft<'_>>
    ensures found { Finds view result (release_in (words_of line.now)) }
    ensures in_range { IfSome result (λ d. IsInstr Two 0 d.instr) }
{
    let node = token::node_register(only_word(line)?)?;
    Some(Draft {
        instr: Instr::Release { node },
        label: None,
    })
}

#[tactic(auto, unfolding(crate::specs::Statements::get_in))]
fn get(line: &[u8]) -> Option<Draft<'_>>
    ensures found { Finds view result (get_in (words_of line.now)) }
    ensures in_range { IfSome result (λ d. IsInstr Two 0 d.instr) }
{
    let Some((to, rest)) = value(line) else {
        return None;
    };
    let Some((node, rest)) = node(rest) else {
        return None;
    };
    let field = token::field(only_word(rest)?)?;
    Some(Draft {
        instr: Instr::Get { to, node, field },
        label: None,
    })
}

#[tactic(auto, unfolding(crate::specs::Statements::put_in))]
fn put(line: &[u8]) -> Option<Draft<'_>>
    ensures found { Finds view result (put_in (words_of line.now)) }
    ensures in_range { IfSome result (λ d. IsInstr Two 0 d.instr) }
{
    let Some((node, rest)) = node(line) else {
        return None;
    };
    let Some((field, rest)) = field(rest) else {
        return None;
    };
    let from = token::value_register(only_word(rest)?)?;
    Some(Draft {
        instr: Instr::Put { node, field, from },
        label: None,
    })
}

#[tactic(auto, unfolding(crate::specs::Statements::kids_in))]
fn kids(line: &[u8]) -> Option<Draft<'_>>
    ensures found { Finds view result (kids_in (words_of line.now)) }
    ensures in_range { IfSome result (λ d. IsInstr Two 0 d.instr) }
{
    let Some((to, rest)) = value(line) else {
        return None;
    };
    let node = token::node_register(only_word(rest)?)?;
    Some(Draft {
        instr: Instr::Kids { to, node },
        label: None,
    })
}

#[tactic(auto, unfolding(crate::specs::Statements::emit_in))]
fn emit(line: &[u8]) -> Option<Draft<'_>>
    ensures found { Finds view result (emit_in (words_of line.now)) }
    ensures in_range { IfSome result (λ d. IsInstr Two 0 d.instr) }
{
    let from = token::value_register(only_word(line)?)?;
    Some(Draft {
        instr: Instr::Emit { from },
        label: None,
    })
}

/// The instruction with that name, if the line has its operands.
#[tactic(auto, unfolding(crate::specs::Statements::draft_in))]
pub fn draft<'a>(name: &[u8], line: &'a [u8]) -> Option<Draft<'a>>
    ensures found { Finds view result (draft_in name.now (words_of line.now)) }
    ensures in_range { IfSome result (λ d. IsInstr Two 0 d.instr) }
{
    if name == b"set".as_slice() {
        set(line)
    } else if name == b"copy".as_slice() {
        copy(line)
    } else if name == b"add".as_slice() {
        add(line)
    } else if name == b"sub".as_slice() {
        subtract(line)
    } else if name == b"mul".as_slice() {
        multiply(line)
    } else if name == b"div".as_slice() {
        divide(line)
    } else if name == b"jmp".as_slice() {
        jump(line)
    } else if name == b"jlt".as_slice() {
        jump_if_less(line)
    } else if name == b"jeq".as_slice() {
        jump_if_equal(line)
    } else if name == b"rep".as_slice() {
        repeat(line)
    } else if name == b"end".as_slice() {
        bare(Instr::End, line)
    } else if name == b"first".as_slice() {
        first(line)
    } else if name == b"child".as_slice() {
        child(line)
    } else if name == b"move".as_slice() {
        move_node(line)
    } else if name == b"rel".as_slice() {
        release(line)
    } else if name == b"get".as_slice() {
        get(line)
    } else if name == b"put".as_slice() {
        put(line)
    } else if name == b"kids".as_slice() {
        kids(line)
    } else if name == b"emit".as_slice() {
        emit(line)
    } else if name == b"ret".as_slice() {
        bare(Instr::Return, line)
    } else if name == b"repv".as_slice() {
        repeat_by(line)
    } else {
        None
    }
}
