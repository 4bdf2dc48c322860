// The counts as unbounded numbers, and their laws, have no code here: what works them out stands in the crates above.
#![tactic(auto)]
