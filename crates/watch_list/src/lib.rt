// The watch list (01, "Monitor", Watching): one entry a rule.
#![tactic(auto)]

use rule_file::RuleFile;

// The list lent has as many entries or more; one is used for each rule.
pub const LEAST_ENTRIES: usize = RuleFile::MOST_RULES;

// How far a rule has come in the block: its standing, and how many steps were relevant.
#[derive(Clone, Copy, Debug, PartialEq, Eq)]
pub struct Watch {
    pub standing: u8,
    pub relevant: u32,
}
