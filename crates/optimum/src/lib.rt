// No code: specs/Optimum.antt states that the design that `smallest` hands back is the first of the smallest, over the definition that the
// call promises, and proofs/Optimal.antt proves it.
#![tactic(auto)]
