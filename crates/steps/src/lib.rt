// What each of the six calls promises, and what that says of every list of calls, in specs/; with the laws by which a call's returns show its
// promise. No code: the calls are in the crates calls and record_calls.
#![tactic(auto)]
