// The tests of a call on a watch list (01, "Monitor", Watching, and "Refused inputs"), in 01's order, and what the file
// declares where none of them refuses it.
#![tactic(auto)]

ghost use Rattle.std.specs.Prelude.{◌≡◌, IfOk};
ghost use Rattle.refusals.specs.Number.{result_number};
ghost use Rattle.rule_file.specs.Decode.{read_file};
ghost use Rattle.rule_file.specs.Held.{held_file};
ghost use Rattle.rule_file.specs.Contents.{steps_of};
ghost use Rattle.watch_list.specs.Watching.{begin_refusal, undeclared_refusal, read_refusal};

use reading::{read, rule_refusal};
use refusals::{Refusal, refuse_if};
use rule_file::RuleFile;
use watch_list::LEAST_ENTRIES;

// What the file declares, for a list of so many entries.
pub fn lent_file(file: &[u8], size: usize) -> Result<RuleFile, Refusal>
    ensures number { result_number result ≡ begin_refusal file.now size }
    ensures file { IfOk result (λ held. held ≡ held_file (read_file file.now).decoded) }
{
    refuse_if(size < LEAST_ENTRIES, Refusal::ShortArea)?;
    read(file)
}

// The same for a step that the file declares.
pub fn stepped_file(file: &[u8], size: usize, step: u8) -> Result<RuleFile, Refusal>
    ensures number { result_number result
        ≡ undeclared_refusal (begin_refusal file.now size) (steps_of file.now) step }
    ensures file { IfOk result (λ held. held ≡ held_file (read_file file.now).decoded) }
{
    let held = lent_file(file, size)?;
    refuse_if(held.steps <= step as usize, Refusal::UndeclaredStep)?;
    Ok(held)
}

// The same for a rule that the file has.
pub fn file_of_rule(file: &[u8], size: usize, rule: u32) -> Result<RuleFile, Refusal>
    ensures number { result_number result ≡ read_refusal file.now size rule }
    ensures file { IfOk result (λ held. held ≡ held_file (read_file file.now).decoded) }
{
    let held = lent_file(file, size)?;
    rule_refusal(held.count, rule)?;
    Ok(held)
}
