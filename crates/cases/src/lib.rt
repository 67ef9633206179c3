// Small circuits: the table and the listings of rules 7.4 to 7.6, 7.9, 7.11, 7.13 and 7.15 in specs/, and their theorems in proofs/; no code.

#![tactic(auto)]
