// What is shown of a rule (01, "Shown sequences").
#![tactic(auto)]

use joint::Joint;

// A sequence that is shown: its length, and the joint standing after it.
#[derive(Clone, Copy)]
pub struct Shown {
    pub length: usize,
    pub standing: Joint,
}

// Both sequences of a rule, where there is one.
#[derive(Clone, Copy)]
pub struct BothShown {
    pub satisfying: Option<Shown>,
    pub violating: Option<Shown>,
}
