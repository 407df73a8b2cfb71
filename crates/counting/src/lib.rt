// Laws of sums, counts, searches, quotients, divisors, lists and bits. No word of scheduling.
#![tactic(auto)]
