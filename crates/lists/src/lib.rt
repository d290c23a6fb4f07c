// Laws of lists, tests and numbers that no other crate owns. They stand in specs/; there is no code.

#![tactic(auto)]
