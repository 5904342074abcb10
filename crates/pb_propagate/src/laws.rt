//! A law of propagation. The function does nothing: what it ensures is the law.

#![tactic(auto, using(crate::proofs::rulesets::Store::laws))]

ghost use Rattle.pb_propagate.specs.engine.engine.Laws.{CompletionsExist};

/// Propagation over a list of constraints ends: there is a derivation that cannot be extended.
pub fn propagation_ends()
    ensures { CompletionsExist }
{}
