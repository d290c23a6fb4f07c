// Reads a rule file (01, "Rule file"): its steps' names, as parts of the file, and its rules.
#![tactic(auto)]

ghost use Rattle.std.specs.Prelude.{◌≡◌, true, length, IfOk, OnOk};
ghost use Rattle.refusals.specs.Number.{result_number};
ghost use Rattle.template.specs.Number.{of_number};
ghost use Rattle.rule.specs.Good.{good_weight};
ghost use Rattle.fields.specs.Bytes.{four_at, part_at};
ghost use Rattle.fields.specs.Seen.{seen};
ghost use Rattle.rule_file.specs.Decode.{found, nothing, weight_at, rule_of, read_file};
ghost use Rattle.rule_file.specs.Fault.{good_weights, faults, first_fault};
ghost use Rattle.rule_file.specs.Code.Held.{decoded_in, WithinLimits, Grown};
ghost use Rattle.rule_file.specs.Held.{held_file};
ghost use Rattle.rule_file.specs.Name.{name_refusal, step_name};
ghost use Rattle.rule_file.specs.Contents.{number_refusal};

use faults::field_fault;
use fields::{Field, byte, field_at, four, part};
use refusals::{Refusal, fault, number_of, refuse_if};
use rule::{Rule, Weights};
use rule_file::{Place, RuleFile};
use template::Template;

// The template of a number, with the count where it counts x. A number that has none was refused before.
fn template_of(number: u8, count: u8) -> Template
    ensures { result ≡ found (of_number number count) }
{
    Template::of_number(number, count).unwrap_or(Template::Participation)
}

// The weight at i of a rule's content, made of its bits once these are tested.
#[tactic(auto, using(rule::specs::Laws::Weight::no_nan))]
fn weight_at(content: &[u8], i: usize) -> f32
    requires { good_weight (four_at content.now i) ≡ true }
    ensures { result ≡ weight_at content.now i }
{
    f32::from_bits(four(content, i))
}

// The rule of a content whose weights were tested.
#[tactic(auto, using(rule_file::specs::Laws::Weight::each_good), unfolding(rule_file::specs::Decode::rule_of))]
fn rule_of(content: &[u8]) -> Rule
    requires { good_weights content.now ≡ true }
    ensures { result ≡ rule_of content.now }
{
    let weights = Weights {
        support: weight_at(content, 3),
        confidence: weight_at(content, 7),
        interest: weight_at(content, 11),
    };
    Rule {
        template: template_of(byte(content, 0), byte(content, 2)),
        x: byte(content, 1),
        y: byte(content, 2),
        weights,
    }
}

// No step and no rule.
#[tactic(auto, unfolding(rule_file::specs::Held::held_file, lists::specs::Padded::padded))]
fn nothing_held() -> RuleFile
    ensures { result ≡ held_file nothing }
{
    let weights = Weights {
        support: 0.0,
        confidence: 0.0,
        interest: 0.0,
    };
    let rule = Rule {
        template: Template::Participation,
        x: 0,
        y: 0,
        weights,
    };
    let place = Place { start: 0, size: 0 };
    RuleFile {
        steps: 0,
        names: [place; RuleFile::MOST_STEPS],
        count: 0,
        rules: [rule; RuleFile::MOST_RULES],
    }
}

// Holds the step or the rule that a field of the file declares, or refuses the field by its first fault.
fn hold_field(file: &[u8], field: &Field, held: &mut RuleFile) -> Result<(), Refusal>
    requires within { WithinLimits held.old }
    requires there { part_at file.now field.now.start (length field.now.content.now) ≡ field.now.content.now }
    ensures number { result_number result ≡ first_fault (faults (decoded_in file.now held.old) (seen field.now)) }
    ensures grown { OnOk result (Grown file.now (seen field.now) held.old held.new) }
{
    field_fault(file, held, field)?;
    if field.tag == RuleFile::STEP_TAG {
        held.names[held.steps] = Place {
            start: field.start,
            size: field.content.len(),
        };
        held.steps += 1;
    } else {
        held.rules[held.count] = rule_of(field.content);
        held.count += 1;
    }
    Ok(())
}

// What a file declares.
pub fn read(file: &[u8]) -> Result<RuleFile, Refusal>
    ensures number { result_number result ≡ (read_file file.now).refusal }
    ensures file { IfOk result (λ held. held ≡ held_file (read_file file.now).decoded) }
{
    let mut held = nothing_held();
    let mut at = 0;
    // Fields are as long as they say: where the next one begins is only known once this one is read.
    while at < file.len() {
        let field = field_at(file, at);
        hold_field(file, &field, &mut held)?;
        at = field.start + field.content.len();
    }
    refuse_if(held.steps < 1, Refusal::NoStep)?;
    Ok(held)
}

// The name of a step as that part of the file.
pub fn named_step(file: &[u8], step: usize) -> Result<&[u8], Refusal>
    ensures number { result_number result ≡ name_refusal file.now step }
    ensures name { IfOk result (λ name. name.now ≡ step_name file.now step) }
{
    let held = read(file)?;
    refuse_if(held.steps <= step, Refusal::UndeclaredStep)?;
    let place = held.names[step];
    Ok(part(file, place.start, place.size))
}

// The name of a step, and an empty part where `name_refusal` refuses.
pub fn step_name(file: &[u8], step: usize) -> &[u8]
    ensures { result.now ≡ step_name file.now step }
{
    match named_step(file, step) {
        Ok(name) => name,
        Err(_) => &file[..0],
    }
}

// The refusal of `step_name` on the same input, where it hands back no name.
pub fn name_refusal(file: &[u8], step: usize) -> Result<(), Refusal>
    ensures { result_number result ≡ name_refusal file.now step }
{
    let _ = named_step(file, step)?;
    Ok(())
}

// Refuses a rule number of a file with so many rules.
pub fn rule_refusal(count: usize, rule: u32) -> Result<(), Refusal>
    ensures { result_number result ≡ number_refusal 0 count rule }
{
    refuse_if(rule == 0 || count < rule as usize, Refusal::NoRule)
}

// The refusal of a rule number, after that of a file with so many rules. By number: it promises its answer for every
// number, also for one that no refusal has.
pub fn number_refusal(refusal: u8, count: usize, rule: u32) -> u8
    ensures { result ≡ number_refusal refusal count rule }
{
    fault(refusal != 0, refusal, number_of(rule_refusal(count, rule)))
}
