// What is sent to a neighbour who asks: the messages of a reply, as values, and the laws on them; no code.
#![tactic(auto)]
