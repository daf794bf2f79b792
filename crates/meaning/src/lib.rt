// The meaning of sites, rules and queries: definitions in specs/, their laws in proofs/. It has no code.
#![tactic(auto)]
