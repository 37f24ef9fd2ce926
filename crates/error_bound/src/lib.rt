// No code: specs/ErrorBound.antt states demand 3 over the definitions that the calls promise, and proofs/Holds.antt proves it.
#![tactic(auto)]
