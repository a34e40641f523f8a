//! The lines that a history prints.

ghost use Rattle.std.specs.Prelude.{◌≡◌, IfOk};
ghost use Rattle.jt_laws.specs.Lines.{lines_of};

use jt_base::{Entry, Op, OutOfMemory, Text};
use std::alloc::Global;

/// The text of each print entry, each followed by a newline.
pub fn lines(alloc: Global, history: &[Entry]) -> Result<Text, OutOfMemory>
    ensures { IfOk result (λ text. text ≡ lines_of history.now) }
{
    let mut text = String::new(alloc);
    for entry in history {
        if let Op::Print(line) = &entry.op {
            text.push_str(line.as_str())?;
            text.push('\n')?;
        }
    }
    Ok(Text::from_string(text))
}
