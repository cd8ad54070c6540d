//! Unit propagation along the hints of a step.
ghost use Rattle.proof_check.specs.Knowledge.{IsFirst};
ghost use Rattle.proof_check.specs.Propagation.{chain_fault, is_among};
ghost use Rattle.proof_check.specs.View.{clause_in};
ghost use Rattle.std.specs.Prelude.{◌≡◌, ◌<◌, ◌^◌, length, None, OnOk, IfErr};

use crate::faults::StepFault;
use crate::left::{Left, Marks};
use crate::live::Live;
use cnf_types::Lit;
use std::alloc::Global;

/// Follows the hints of a clause that is to be added, with its literals false, up to a conflict, in
/// time linear in the literals of the clause and of those that are hinted at. The marks of earlier
/// steps do not matter.
pub(crate) fn follow(
    alloc: Global,
    live: &Live,
    marks: &mut Marks,
    lits: &[Lit],
    hints: &[i64],
) -> Result<(), StepFault>
    requires { length hints.now < 2 ^ 32 }
    ensures ok { OnOk result
        (chain_fault (clause_in live.now) (is_among lits.now) 0 hints.now ≡ None) }
    ensures fault { IfErr result
        (IsFirst (chain_fault (clause_in live.now) (is_among lits.now) 0 hints.now)) }
{
    marks.restart(alloc, lits)?;
    for (place, hint) in hints.iter().enumerate() {
        if *hint < 0 {
            return Err(StepFault::NegativeHint(place as u32));
        }
        let Some(clause) = live.get(*hint as u64) else {
            return Err(StepFault::UnknownId(place as u32));
        };
        match marks.left(clause) {
            Left::Nothing => return Ok(()),
            Left::One(lit) => marks.mark(lit.negated())?,
            Left::More => return Err(StepFault::HintNotUnit(place as u32)),
        }
    }
    Err(StepFault::NoConflict)
}
