// No code: proofs/Starred.antt has document 01's starred examples, proofs/Worked.antt further ones, proved about the definitions.
#![tactic(auto)]
