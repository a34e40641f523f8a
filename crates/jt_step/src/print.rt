//! How an evaluator prints.

ghost use Rattle.std.specs.Prelude.{◌≡◌, ◌+◌, ◌≤◌, IfOk};
ghost use Rattle.jt_program.specs.Plan.{ProgramPlan};
ghost use Rattle.jt_meaning.specs.Meaning.{go, run_pieces};
ghost use Rattle.jt_step.specs.Moves.{Does, from_value};
ghost use Rattle.jt_meaning.specs.State.{State};
ghost use Rattle.jt_step.specs.Stack.{pieces_in, pieces_weight};

use crate::evaluator::Evaluator;
use crate::fork::waits;
use crate::frame::Frame;
use crate::line::Line;
use crate::mode::Mode;
use crate::small::{Cause, SmallFault};
use jt_base::{Op, OutOfMemory};
use jt_program::{Code, Piece};
use std::alloc::Global;

impl<'p> Evaluator<'p> {
    /// Goes on with the items of a `println` that are left, up to the first that is evaluated, and
    /// prints; `line` is the text of those before.
    pub(crate) fn next_piece(
        &mut self,
        alloc: Global,
        pieces: &'p [Piece],
        line: Line,
    ) -> Result<Mode<'p>, OutOfMemory>
        ensures { IfOk result (λ m. (program : ProgramPlan) → Does program self.old (run_pieces program (go program) line (pieces_in pieces.now)) (pieces_weight (pieces_in pieces.now) + 1) self.new m) }
    {
        let mut line = line;
        match next_value(pieces, &mut line)? {
            Some((e, rest)) => {
                self.frames.push(Frame::Pieces(rest, line))?;
                Ok(Mode::Eval(e))
            }
            None => match line.finish() {
                Some(text) => {
                    let mode = waits(alloc, Op::Print(text))?;
                    Ok(mode)
                }
                None => Ok(Mode::Faulted(SmallFault {
                    cause: Cause::Method,
                })),
            },
        }
    }
}

/// Adds the texts that stand before the next value to the line. That value, if there is one, and the
/// items behind it.
fn next_value<'p>(
    pieces: &'p [Piece],
    line: &mut Line,
) -> Result<Option<(&'p Code, &'p [Piece])>, OutOfMemory>
    ensures same { IfOk result (λ found. (program : ProgramPlan) (s : State) → run_pieces program (go program) line.new (from_value found) s ≡ run_pieces program (go program) line.old (pieces_in pieces.entry.now) s) }
    ensures lighter { IfOk result (λ found. pieces_weight (from_value found) ≤ pieces_weight (pieces_in pieces.entry.now)) }
{
    for (index, piece) in pieces.iter().enumerate() {
        match piece {
            Piece::Text(text) => line.push_text(text.as_slice())?,
            Piece::Value(e) => return Ok(Some((e, &pieces[index + 1..]))),
        }
    }
    Ok(None)
}
