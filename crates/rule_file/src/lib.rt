// What a rule file holds (01, "Rule file", as docs/FORMAT.md has it too). The crate `reading` reads one.
#![tactic(auto)]

use rule::Rule;

// Where the name of a step stands in the file.
#[derive(Clone, Copy)]
pub struct Place {
    pub start: usize,
    pub size: usize,
}

// The first `steps` names and the first `count` rules are the file's. That both are within the limits stands in the
// contracts (`WithinLimits`), not in the type: the definition `held_file` makes this record of any decoded file.
#[derive(Clone, Copy)]
pub struct RuleFile {
    pub steps: usize,
    pub names: [Place; RuleFile::MOST_STEPS],
    pub count: usize,
    pub rules: [Rule; RuleFile::MOST_RULES],
}

impl RuleFile {
    pub const MOST_STEPS: usize = 24;

    pub const MOST_RULES: usize = 32;

    pub const STEP_TAG: u8 = 0x53;

    pub const RULE_TAG: u8 = 0x52;

    pub const LONGEST_NAME: usize = 16;

    // Template, x and y in one byte each, three weights in four.
    pub const RULE_LENGTH: usize = 15;

    // What stands for y in templates without one.
    pub const NO_Y: u8 = 0xFF;

    // The bits of 1.0.
    pub const LARGEST_WEIGHT: u32 = 0x3F800000;
}
