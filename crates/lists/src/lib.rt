// No code: the definitions and laws on lists and on tests over numbers that every other crate cites.
#![tactic(auto)]
