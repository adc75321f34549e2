// No code: what a list of calls leaves of a memory, call by call, and what replay hands back, with the laws on both.
#![tactic(auto)]
