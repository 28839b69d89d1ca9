// What the engine makes of a lighter plan: definitions and proofs only.

#![tactic(auto)]
