//! Lists of parts, which hold these with no box.

ghost use Rattle.std.specs.Prelude.{◌≡◌, ◌++◌, ◌∷◌, [], OnOk, map};
ghost use Rattle.jt_program.specs.View as piece;
ghost use Rattle.jt_program.specs.View.{plan_of, operand_plan, arm_plan, piece_plan};

use crate::nodes::{Allocated, Node};
use jt_program::{Arm, Code, Piece};
use sqlite_items::Items;
use std::alloc::Global;

#[tactic(auto, using(jt_lowered::proofs::Pushed::map_pushed))]
pub fn push(codes: &mut Items<Code>, code: Node) -> Allocated<()>
    ensures { OnOk result (map plan_of codes.new ≡ map plan_of codes.old ++ plan_of code ∷ []) }
{
    codes.push(code.into_inner())
}

/// Puts one more operand behind the others, with the operator between.
#[tactic(auto, using(jt_lowered::proofs::Pushed::map_pushed))]
pub(crate) fn push_operand<O: Copy>(
    operands: &mut Items<(O, Code)>,
    operator: O,
    code: Node,
) -> Allocated<()>
    ensures { OnOk result (map operand_plan operands.new ≡ map operand_plan operands.old ++ (operator, plan_of code) ∷ []) }
{
    operands.push((operator, code.into_inner()))
}

#[tactic(auto, using(jt_lowered::proofs::Pushed::map_pushed))]
pub fn push_arm(arms: &mut Items<Arm>, condition: Node, body: Node) -> Allocated<()>
    ensures { OnOk result (map arm_plan arms.new ≡ map arm_plan arms.old ++ (plan_of condition, plan_of body) ∷ []) }
{
    arms.push(Arm {
        condition: condition.into_inner(),
        body: body.into_inner(),
    })
}

#[tactic(auto, using(jt_lowered::proofs::Pushed::map_pushed))]
pub fn push_value(pieces: &mut Items<Piece>, code: Node) -> Allocated<()>
    ensures { OnOk result (map piece_plan pieces.new ≡ map piece_plan pieces.old ++ piece.value (plan_of code) ∷ []) }
{
    pieces.push(Piece::Value(code.into_inner()))
}

#[tactic(auto, using(jt_lowered::proofs::Pushed::map_pushed))]
pub fn push_text(alloc: Global, pieces: &mut Items<Piece>, text: &[u8]) -> Allocated<()>
    ensures { OnOk result (map piece_plan pieces.new ≡ map piece_plan pieces.old ++ piece.text text.now ∷ []) }
{
    let text = Items::from_slice(alloc, text)?;
    pieces.push(Piece::Text(text))
}
