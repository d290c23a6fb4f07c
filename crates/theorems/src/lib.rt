// What holds of several operations together, beyond the contract of each. It stands in specs/; there is no code.

#![tactic(auto)]
