// What a routing table remembers over any list of calls: a theory of the calls' definitions, with no code.
#![tactic(auto)]
