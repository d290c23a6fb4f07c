// The scope document's cases that are for proof, as one table. It stands in specs/; there is no code.

#![tactic(auto)]
