// A rule (01, "Rule file"): its template, its steps and its weights.
#![tactic(auto)]

use template::Template;

// Each from 0.0 to 1.0.
#[derive(Clone, Copy)]
pub struct Weights {
    pub support: f32,
    pub confidence: f32,
    pub interest: f32,
}

// Steps are numbered from 0. Templates without a y have 0xFF there, and those that count x their count.
#[derive(Clone, Copy)]
pub struct Rule {
    pub template: Template,
    pub x: u8,
    pub y: u8,
    pub weights: Weights,
}
