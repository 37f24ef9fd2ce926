// That sets stored as Intel HEX records come back, and that nothing else is accepted: a statement, no code.
#![tactic(auto)]
