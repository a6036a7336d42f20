// Laws of sliding windows, in specs/: what one more sample does to a window of the reference model. No code.
#![tactic(auto)]
