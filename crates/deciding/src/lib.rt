// What is decided of the rules of a file (01, "Joint standings and the first pass" and "Second pass").
#![tactic(auto)]

use joint::Joint;
use rule_file::RuleFile;

// What becomes of a rule, with the number that stands in its verdict.
#[derive(Clone, Copy)]
pub enum Fate {
    Kept = 0,
    Conflicting = 1,
    Implied = 2,
    SetAside = 3,
    Dropped = 4,
    Untested = 5,
}

// What a test of a candidate against kept rules comes to: how many joint standings there are, held at 4,097, and
// whether they are at most 4,096 and some one of them satisfies all kept rules and the candidate, or all kept rules and
// not it.
#[derive(Clone, Copy)]
pub struct Outcome {
    pub count: u16,
    pub satisfying: bool,
    pub violating: bool,
}

// What is reported of a rule.
#[derive(Clone, Copy)]
pub struct Report {
    pub fate: Fate,
    pub first: u16,
    pub second: u16,
}

// The rules kept so far in the first pass: as a set, and the first `count` numbers of `order`, best first.
#[derive(Clone, Copy)]
pub struct Kept {
    pub set: Joint,
    pub order: [u8; RuleFile::MOST_RULES],
    pub count: usize,
}

// The first pass: the rules kept, and the outcome of rule n at n - 1.
#[derive(Clone, Copy)]
pub struct FirstPass {
    pub kept: Kept,
    pub outcomes: [Outcome; RuleFile::MOST_RULES],
}

impl Outcome {
    // No test was made.
    pub const NONE: Outcome = Outcome {
        count: 0,
        satisfying: false,
        violating: false,
    };
}
