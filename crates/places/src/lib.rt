// Laws of the places of a number over a width. They stand in specs/; there is no code.

#![tactic(auto)]
