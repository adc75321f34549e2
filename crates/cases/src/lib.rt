// No code: cases a to m of document 01, computed from the definitions.
#![tactic(auto)]
