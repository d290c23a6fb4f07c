// One entry of a watch list (01, "Monitor", Watching): whether its rule's template has its standing, the entry after a
// step, and what it says.
#![tactic(auto)]

ghost use Rattle.std.specs.Prelude.{◌≡◌, ◌<◌};
ghost use Rattle.template.specs.Limits.{most_standings};
ghost use Rattle.values.specs.Progress.{counted};
ghost use Rattle.watch_list.specs.Entry.{moved_entry, known_entry, entry_state};
ghost use Rattle.watch_list.specs.Given.{said_of};

use kinds::{kind_of, lacks_y};
use rule::Rule;
use standing_values::{changes_activation, has_other, value_in};
use table::{row_of, rows_of, standings_of};
use values::State;
use watch_list::Watch;

// Whether the entry has a standing of its rule's template.
pub fn known(rule: Rule, entry: Watch) -> bool
    ensures { result ≡ known_entry rule entry }
{
    entry.standing < standings_of(rule.template)
}

// The count after a step that is relevant or not.
#[tactic(auto, using(lists::specs::Laws::Decides::byte_flag), unfolding(values::specs::Progress::counted))]
fn counted(relevant: u32, more: bool) -> u32
    ensures { result ≡ counted relevant more }
{
    relevant.saturating_add(u32::from(more))
}

// The entry of a rule of a file with so many steps, after a step.
pub fn moved_entry(rule: Rule, steps: usize, step: u8, entry: Watch) -> Watch
    requires { entry.standing < most_standings }
    ensures { result ≡ moved_entry rule steps step entry }
{
    let template = rule.template;
    let lacking = lacks_y(template);
    let row = row_of(template, entry.standing);
    let kind = kind_of(lacking, rule.x, rule.y, step);
    let standing = row.next(kind);
    let other = has_other(lacking, steps);
    let more = changes_activation(template, other, entry.standing, standing);
    Watch {
        standing,
        relevant: counted(entry.relevant, more),
    }
}

// What an entry says of its rule, in a file of so many steps: nothing where it has no standing of the template.
pub fn state_of(rule: Rule, steps: usize, entry: Watch) -> Option<State>
    ensures { said_of result ≡ entry_state rule steps entry }
{
    if !known(rule, entry) {
        return None;
    }
    let template = rule.template;
    let lacking = lacks_y(template);
    let rows = rows_of(template);
    let other = has_other(lacking, steps);
    Some(State {
        value: value_in(lacking, &rows, other, entry.standing),
        relevant: entry.relevant,
    })
}
