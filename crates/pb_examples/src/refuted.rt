//! The first program of README.md, which has it word for word.

ghost use Rattle.std.specs.Prelude.{◌≡◌, true, IfOk};
ghost use Rattle.pb_tool.specs.meaning.Headline.{IsUnsatText};
ghost use Rattle.pb_examples.specs.Refuted.{IsAnswer};

use pb_replay::Verdict;
use pb_text::{Limits, Over};
use pb_tool::laws::check::unsat_is_exact;
use pb_tool::{ToolFault, check};
use std::alloc::Global;

/// Whether a proof shows that an instance has no solution.
pub fn is_refuted(alloc: Global, instance: &[u8], proof: &[u8]) -> Result<bool, ToolFault>
    // `true` means that no assignment satisfies the instance.
    ensures unsat { result ≡ Ok true → IsUnsatText instance.now }
    // The answer is `true` if and only if the rules accept the proof, and it concludes UNSAT.
    ensures exact { IfOk result (IsAnswer instance.now proof.now) }
{
    unsat_is_exact::<Over<Vec<u8>>>();
    let (mut instance, mut proof) = (Over::new(instance), Over::new(proof));
    let mut out = Over::new(Vec::new(alloc));
    let limits = Limits::full();
    let verdict = check(alloc, &mut instance, &mut proof, &mut out, None, limits)?;
    Ok(matches!(verdict, Verdict::Unsat))
}
