// Demand 3 for any index whose calls do what they say, over any list of calls: definitions and laws, no code.
#![tactic(auto)]
