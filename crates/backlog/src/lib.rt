// The theory: the backlog of a class of jobs, and what follows from it for demands 2 and 3.
#![tactic(auto)]
