// The C entries (01, "a C entry for pruning, for showing and for a run's state"): `include/tullweth.h` declares them,
// and docs/FORMAT.md says what they answer.
#![tactic(auto)]

ghost use Rattle.pruning.specs.Prunes.{Prunes};
ghost use Rattle.shown.specs.Shows.{Shows};
ghost use Rattle.values.specs.Answer.{Monitors};

use monitor::write_state;
use pruning::prune;
use refusals::number_of;
use showing::show;

// Prunes the rules of a file: `pruning::prune`.
#[unsafe(no_mangle)]
pub extern "C" fn tullweth_prune(
    file: &[u8],
    found: &mut [u64],
    links: &mut [u16],
    verdicts: &mut [u8],
) -> u32
    ensures { Prunes file.now found.old links.old verdicts.old
        found.new links.new verdicts.new result }
{
    u32::from(number_of(prune(file, found, links, verdicts)))
}

// Shows sequences behind the fate of a rule: `showing::show`.
#[unsafe(no_mangle)]
pub extern "C" fn tullweth_show(
    file: &[u8],
    rule: u32,
    found: &mut [u64],
    links: &mut [u16],
    satisfying: &mut [u8],
    violating: &mut [u8],
    answer: &mut [u64],
) -> u32
    ensures { Shows file.now rule
        found.old links.old
        satisfying.old violating.old answer.old
        found.new links.new
        satisfying.new violating.new answer.new result }
{
    u32::from(number_of(show(file, rule, found, links, satisfying, violating, answer)))
}

// Gives the state of a rule after a run: `monitor::write_state`.
#[unsafe(no_mangle)]
pub extern "C" fn tullweth_state(file: &[u8], run: &[u8], rule: u32, answer: &mut [u64]) -> u32
    ensures { Monitors file.now run.now rule
        answer.old answer.new result }
{
    u32::from(number_of(write_state(file, run, rule, answer)))
}
