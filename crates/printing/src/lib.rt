// No code: the two texts as they are written, and the laws that reading and writing are inverse to one another.
#![tactic(auto)]
