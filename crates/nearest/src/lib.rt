// The n nearest of some keys, over any keys, any distance and any limit n: definitions and laws, no code.
#![tactic(auto)]
