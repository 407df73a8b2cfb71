// What must be believed: the definitions in specs/. They need no code.
#![tactic(auto)]
