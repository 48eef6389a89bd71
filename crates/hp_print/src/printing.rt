//! Printing a script, or an item, as its canonical text.

ghost use Rattle.std.specs.Prelude.{◌≡◌};
ghost use Rattle.serde_json.specs.View.{view};
ghost use Rattle.hp_model.specs.NotationValues.{print_value, print_item_value};
ghost use Rattle.hp_print.specs.Printed.{IsPrinted};
ghost use Rattle.hp_print.specs.declared.error.PrintError.TheVariants.{Memory};

use crate::error::PrintError;
use crate::rule::item;
use crate::script::script;
use crate::token::Gap;
use crate::writer::Writer;
use serde_json::Value;
use std::alloc::{AllocError, Global};

impl From<AllocError> for PrintError {
    ghost from_gives = { λ _ error. error ≡ Memory };

    fn from(_error: AllocError) -> PrintError {
        PrintError::Memory
    }
}

/// The canonical text of the script in a value, as `decode_value` takes one. A line feed ends its last line.
///
/// An error is `NoForm` if the value is no script that a text can stand for: it has another form somewhere, a name that
/// is none, a number outside 64 bits, or nests deeper than a text may. It is `Memory` if memory ran out.
pub fn print_text(alloc: Global, value: &Value) -> Result<String, PrintError>
    ensures { IsPrinted result (print_value (view value.now)) }
{
    let mut writer = Writer::new(alloc, false);
    script(&mut writer, value)?;
    if writer.is_refused {
        return Err(PrintError::NoForm);
    }
    let mut text = writer.text;
    text.push_str("\n")?;
    Ok(text)
}

/// The canonical text of the item in a value, on one line, without a line feed. Its errors are those of `print_text`.
pub fn print_line(alloc: Global, value: &Value) -> Result<String, PrintError>
    ensures { IsPrinted result (print_item_value (view value.now)) }
{
    let mut writer = Writer::new(alloc, true);
    item(&mut writer, Gap::Tight, value)?;
    if writer.is_refused {
        return Err(PrintError::NoForm);
    }
    Ok(writer.text)
}
