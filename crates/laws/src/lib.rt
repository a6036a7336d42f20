// Laws of what the definitions are written with, in specs/: lists, tests, the order of the integers, sums, signed numbers. No code.
#![tactic(auto)]
