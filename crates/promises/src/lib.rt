// What is promised, demand by demand. What takes more than a few lines to prove is proved in a law crate and cited.
#![tactic(auto)]
