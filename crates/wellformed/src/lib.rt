// What a table keeps that is not refused.
#![tactic(auto)]
