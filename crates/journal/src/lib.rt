// Whole journals: definitions and the theorem on every list of calls. There is no code here.
#![tactic(auto)]
