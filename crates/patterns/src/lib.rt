// The theory of idle instants, of the quick test, of the distance test and of tasks that come when they like.
#![tactic(auto)]
