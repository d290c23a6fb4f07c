// The value of a rule after a run (01, "Monitor"). A run is one byte a step, its number.
#![tactic(auto)]

use rule_file::RuleFile;

// What is lent for the answer (01, "Shown sequences"): numbers for the value and the count.
pub const STATE_NUMBERS: usize = 2;

// Counts of relevant steps are held at this one.
pub const MOST_RELEVANT: u32 = u32::MAX;

// Whether a run satisfies the rule, and whether some continuation over the declared steps does otherwise. Each value
// has the number of 01.
#[derive(Clone, Copy, Debug, PartialEq, Eq)]
pub enum Value {
    TemporarilySatisfied = 0,
    TemporarilyViolated = 1,
    PermanentlySatisfied = 2,
    PermanentlyViolated = 3,
}

// The value of a rule after a run and the count of the run's relevant steps.
#[derive(Clone, Copy, Debug, PartialEq, Eq)]
pub struct State {
    pub value: Value,
    pub relevant: u32,
}

// How a rule moves: two words for each step, with a place for each of the rule's standings. Its activation state (02,
// M-103) is its value with the set of permitted steps.
#[derive(Clone, Copy)]
pub struct RuleMoves {
    // The next standing.
    pub next: [u64; RuleFile::MOST_STEPS],
    // 1 where the step changes the activation state, 0 where it does not.
    pub changes: [u64; RuleFile::MOST_STEPS],
}
