// The rules and their laws: definitions in specs/, theorems in proofs/; no code.

#![tactic(auto)]
