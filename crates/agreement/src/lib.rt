// No code: specs/Agreement.antt states where each input lands, that the five counts add up, and how they stand to the check, over the
// definitions that the calls promise, and proofs/Agrees.antt proves it.
#![tactic(auto)]
