// The first fault of a field of a rule file (01, "Refused inputs"; M-100).
#![tactic(auto)]

ghost use Rattle.std.specs.Prelude.{◌≡◌, map};
ghost use Rattle.lists.specs.Exhaustive.{every};
ghost use Rattle.rule.specs.Good.{good_template, good_count, good_steps, good_weight};
ghost use Rattle.fields.specs.Bytes.{four_at};
ghost use Rattle.fields.specs.Seen.{seen};
ghost use Rattle.refusals.specs.Number.{result_number};
ghost use Rattle.rule_file.specs.Fault.{among, printable, good_name, good_weights, step_faults, rule_faults};
ghost use Rattle.rule_file.specs.Fault.{tag_faults, faults, first_fault};
ghost use Rattle.rule_file.specs.Code.Held.{name_in, decoded_in, WithinLimits};

use fields::{Field, byte, four, part};
use kinds::is_counting;
use refusals::{Refusal, refuse_if};
use rule_file::{Place, RuleFile};
use template::Template;

fn is_printable(b: u8) -> bool
    ensures { result ≡ printable b }
{
    0x21 <= b && b <= 0x7E
}

fn all_printable(s: &[u8]) -> bool
    ensures { result ≡ every printable s.now }
{
    s.iter().all(|b| is_printable(*b))
}

fn good_name(name: &[u8]) -> bool
    ensures { result ≡ good_name name.now }
{
    1 <= name.len() && name.len() <= RuleFile::LONGEST_NAME && all_printable(name)
}

// Whether a name is one of those at the places.
fn name_used(file: &[u8], places: &[Place], name: &[u8]) -> bool
    ensures { result ≡ among name.now (map (name_in file.now) places.now) }
{
    places
        .iter()
        .any(|place| name == part(file, place.start, place.size))
}

// The first fault of a step, after those that are held.
fn step_fault(file: &[u8], held: &RuleFile, name: &[u8]) -> Result<(), Refusal>
    requires { WithinLimits held.now }
    ensures { result_number result
        ≡ first_fault (step_faults (decoded_in file.now held.now).names held.now.count name.now) }
{
    refuse_if(0 < held.count, Refusal::StepAfterRule)?;
    refuse_if(RuleFile::MOST_STEPS <= held.steps, Refusal::TooManySteps)?;
    refuse_if(!good_name(name), Refusal::BadName)?;
    let used = name_used(file, &held.names[..held.steps], name);
    refuse_if(used, Refusal::NameUsed)
}

fn good_template(number: u8) -> bool
    ensures { result ≡ good_template number }
{
    1 <= number && number <= Template::COUNT
}

// Whether y is in the limits of a count where the template counts x.
fn good_count(template: u8, y: u8) -> bool
    ensures { result ≡ good_count template y }
{
    !is_counting(template) || (1 <= y && y <= Template::MOST_COUNT)
}

fn good_steps(steps: usize, template: u8, x: u8, y: u8) -> bool
    ensures { result ≡ good_steps steps template x y }
{
    let good_y = if template <= Template::LAST_WITHOUT_Y {
        y == RuleFile::NO_Y
    } else {
        is_counting(template) || (usize::from(y) < steps && x != y)
    };
    usize::from(x) < steps && good_y
}

// Whether the weight at i of a rule's content is at most 1.0, by its bits.
fn good_weight(content: &[u8], i: usize) -> bool
    ensures { result ≡ good_weight (four_at content.now i) }
{
    four(content, i) <= RuleFile::LARGEST_WEIGHT
}

fn good_weights(content: &[u8]) -> bool
    ensures { result ≡ good_weights content.now }
{
    good_weight(content, 3) && good_weight(content, 7) && good_weight(content, 11)
}

// The first fault of a rule, after the given numbers of steps and rules.
fn rule_fault(steps: usize, rules: usize, content: &[u8]) -> Result<(), Refusal>
    ensures { result_number result ≡ first_fault (rule_faults steps rules content.now) }
{
    let template = byte(content, 0);
    let x = byte(content, 1);
    let y = byte(content, 2);
    refuse_if(RuleFile::MOST_RULES <= rules, Refusal::TooManyRules)?;
    refuse_if(content.len() != RuleFile::RULE_LENGTH, Refusal::BadLength)?;
    refuse_if(!good_template(template), Refusal::NoTemplate)?;
    refuse_if(!good_count(template, y), Refusal::BadCount)?;
    refuse_if(!good_steps(steps, template, x, y), Refusal::BadSteps)?;
    refuse_if(!good_weights(content), Refusal::BadWeight)
}

// The first fault of a field that is whole, by its tag.
#[tactic(auto, using(rule_file::specs::Code::HeldLaws::held_sizes), unfolding(rule_file::specs::Fault::tag_faults))]
fn tag_fault(file: &[u8], held: &RuleFile, tag: u8, content: &[u8]) -> Result<(), Refusal>
    requires { WithinLimits held.now }
    ensures { result_number result
        ≡ first_fault (tag_faults (decoded_in file.now held.now) tag content.now) }
{
    match tag {
        RuleFile::STEP_TAG => step_fault(file, held, content),
        RuleFile::RULE_TAG => rule_fault(held.steps, held.count, content),
        _ => Err(Refusal::OtherTag),
    }
}

// Refuses a field by its first fault, given what is held of those before it.
#[tactic(auto, unfolding(rule_file::specs::Fault::faults))]
pub fn field_fault(file: &[u8], held: &RuleFile, field: &Field) -> Result<(), Refusal>
    requires { WithinLimits held.now }
    ensures { result_number result ≡ first_fault (faults (decoded_in file.now held.now) (seen field.now)) }
{
    refuse_if(!field.whole, Refusal::FileEnds)?;
    tag_fault(file, held, field.tag, field.content)
}
