//! The cut of a history at the end of the main task.

ghost use Rattle.std.specs.Prelude.{◌≡◌};
ghost use Rattle.jt_laws.specs.Lines.{cut_at_main_end, is_main_end};

use jt_base::{Entry, Op};

fn ends_main(entry: &Entry) -> bool
    ensures { result ≡ is_main_end entry.now }
{
    match entry.op {
        Op::End(_) | Op::Fail(_) => entry.task.is_main(),
        _ => false,
    }
}

/// The entries up to and with main's End or Fail; all of them where main hasn't ended.
pub fn cut_at_main_end(history: Vec<Entry>) -> Vec<Entry>
    ensures { result.items ≡ cut_at_main_end history.items }
{
    let mut history = history;
    let mut length = 0;
    for entry in &history {
        length += 1;
        if ends_main(entry) {
            break;
        }
    }
    history.truncate(length);
    history
}
