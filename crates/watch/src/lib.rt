// The watch list (01, "Monitor", Watching): a console lends a list with one entry a rule, begins it, and hands over
// each step of a running block as it is done. A refused call changes no entry.
#![tactic(auto)]

ghost use Rattle.std.specs.Prelude.{◌≡◌, true, ◌≤◌, length};
ghost use Rattle.refusals.specs.Number.{result_number};
ghost use Rattle.watch_list.specs.Given.{entry_state_of};
ghost use Rattle.watch_list.specs.Watching.{all_known, moved_first, Begins, Steps, Reads};

use refusals::{Refusal, refuse_if};
use rule::Rule;
use template::Template;
use values::State;
use watch_entries::{known, moved_entry, state_of};
use watch_list::Watch;
use watch_plans::{file_of_rule, lent_file, stepped_file};

// An entry as beginning sets it.
const BEGUN: Watch = Watch {
    standing: Template::FIRST_STANDING,
    relevant: 0,
};

// Whether the entry of each rule has a standing of the rule's template.
fn all_known(list: &[Watch], rules: &[Rule]) -> bool
    requires { length rules.now ≤ length list.now }
    ensures { result ≡ all_known rules.now (length rules.now) list.now }
{
    rules
        .iter()
        .zip(list)
        .all(|(rule, entry)| known(*rule, *entry))
}

// Moves the entry of each rule of a file with so many steps by a step.
fn move_all(list: &mut [Watch], rules: &[Rule], steps: usize, step: u8)
    requires { (length rules.now ≤ length list.old)
        × (all_known rules.now (length rules.now) list.old ≡ true) }
    ensures { list.new ≡ moved_first rules.now steps (length rules.now) step list.old }
{
    // By index: after a loop over `list.iter_mut().zip(rules)` a proof knows nothing of what it wrote.
    for (i, rule) in rules.iter().enumerate() {
        list[i] = moved_entry(*rule, steps, step, list[i]);
    }
}

// Begins the entries of a file's rules, or gives the refusal and changes no entry.
pub fn begin(file: &[u8], list: &mut [Watch]) -> Result<(), Refusal>
    ensures { Begins file.now list.old list.new (result_number result) }
{
    let held = lent_file(file, list.len())?;
    list[..held.count].fill(BEGUN);
    Ok(())
}

// Moves the entries of a file's rules by a step, or gives the refusal and changes no entry.
pub fn step(file: &[u8], list: &mut [Watch], step: u8) -> Result<(), Refusal>
    ensures { Steps file.now step list.old list.new (result_number result) }
{
    let held = stepped_file(file, list.len(), step)?;
    let rules = &held.rules[..held.count];
    let every = all_known(list, rules);
    refuse_if(!every, Refusal::UnknownStanding)?;
    move_all(list, rules, held.steps, step);
    Ok(())
}

// The value and the count of relevant steps that the entry of a rule holds, nothing where it has no standing of the
// rule's template, or the refusal.
pub fn read_entry(file: &[u8], list: &[Watch], rule: u32) -> Result<Option<State>, Refusal>
    ensures { Reads file.now list.now rule (entry_state_of result) }
{
    let held = file_of_rule(file, list.len(), rule)?;
    let place = rule as usize - 1;
    Ok(state_of(held.rules[place], held.steps, list[place]))
}
