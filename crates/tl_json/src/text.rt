// Writes JSON as text, piece by piece, for data that would be large as a value.

ghost use Rattle.std.specs.Prelude.{◌≡◌, ◌++◌, nat_lt, map, string_bytes, All, OnOk};
ghost use Rattle.serde_json.specs.Data.{Data};
ghost use Rattle.serde_json.specs.Written.{comma_if, compact_text};
ghost use Rattle.tl_json.specs.Lists.{list_data};

use itoa::{Buffer, Integer};
use std::alloc::AllocError;
use tl_tree::Record;

/// Something that is written as JSON text with no spaces.
pub trait PushText {
    ghost data: { Self → Data };

    // What holds for everything that was written.
    ghost IsFit: { Self → Type 0 };

    /// Appends its text. If memory is refused, part of the text may have been added.
    fn push_text(&self, text: &mut String) -> Result<(), AllocError>
        ensures text { OnOk result (string_bytes text.new ≡ string_bytes text.old ++ compact_text (Self.data self.now)) }
        ensures fit { OnOk result (Self.IsFit self.now) };
}

/// Appends the text of the list of these items. If memory is refused, part of the text may have been added.
pub fn push_list<T: PushText>(text: &mut String, items: &[T]) -> Result<(), AllocError>
    ensures text { OnOk result (string_bytes text.new ≡ string_bytes text.old ++ compact_text (list_data (map T.data items.now))) }
    ensures fit { OnOk result (All T.IsFit items.now) }
{
    text.push_str("[")?;
    for (index, item) in items.iter().enumerate() {
        push_comma(text, index)?;
        item.push_text(text)?;
    }
    text.push_str("]")
}

// A comma before every item but the first.
fn push_comma(text: &mut String, index: usize) -> Result<(), AllocError>
    ensures { OnOk result (string_bytes text.new ≡ string_bytes text.old ++ comma_if (nat_lt 0 index)) }
{
    if index == 0 {
        return Ok(());
    }
    text.push_str(",")
}

pub(crate) fn push_number<I: Integer>(text: &mut String, number: I) -> Result<(), AllocError>
    ensures { OnOk result (string_bytes text.new ≡ string_bytes text.old ++ I.text number) }
{
    let mut buffer = Buffer::new();
    text.push_str(buffer.format(number))
}

impl PushText for i64 {
    ghost use Rattle.std.specs.Prelude.{FitsSigned};
    ghost use Rattle.std.specs.Int.{w64};
    ghost use Rattle.tl_tree.specs.Writing.{integer_data};

    ghost data = { integer_data };

    ghost IsFit = { FitsSigned w64 };

    fn push_text(&self, text: &mut String) -> Result<(), AllocError> {
        push_number(text, *self)
    }
}

/// The list of its fields.
impl PushText for Record {
    ghost use Rattle.tl_tree.specs.Trees.{IsRecord};
    ghost use Rattle.tl_tree.specs.Writing.{integers_data};

    ghost data = { integers_data };

    ghost IsFit = { IsRecord };

    fn push_text(&self, text: &mut String) -> Result<(), AllocError> {
        push_list(text, self)
    }
}
