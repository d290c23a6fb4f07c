// Shows the sequences of a candidate against kept rules (01, "Shown sequences").
#![tactic(auto)]

ghost use Rattle.std.specs.Prelude.{List, ◌≡◌, ℕ, ◌≤◌, length};
ghost use Rattle.rule.specs.Behaviour.{RuleNumber};
ghost use Rattle.rule.specs.declared.Rule.{Rule};
ghost use Rattle.rule.specs.Limits.{most_steps};
ghost use Rattle.joint.specs.Joint.{packed};
ghost use Rattle.joint.specs.Code.Table.{table_of};
ghost use Rattle.joint.specs.Laws.Sets.{IsSet};
ghost use Rattle.search.specs.Code.Areas.{standing_in, Falling};
ghost use Rattle.search.specs.Code.JointSearch.{fitting_by};
ghost use Rattle.search.specs.Areas.{WorkAreas, RestKept};
ghost use Rattle.search.specs.Limits.{joint_limit, found_numbers, sequence_bytes};
ghost use Rattle.deciding.specs.Code.Kept.{Others};
ghost use Rattle.shown.specs.Code.Sequences.{Looked, BothSequences};

use candidate::{place_among_few, search_candidate};
use entering::standing_at;
use joint::{Joint, Table};
use results::read_back;
use shown::{BothShown, Shown};

// Shows the first joint standing found that satisfies all kept rules, and the candidate as wanted: writes the steps
// that led there from the start of the area.
fn show_sequence(
    found: &[u64],
    links: &[u16],
    area: &mut [u8],
    table: &Table,
    count: usize,
    kept: Joint,
    candidate: u8,
    wanted: bool,
) -> Option<Shown>
    requires found_numbers_in_bounds { (found_numbers ≤ length found.now) × (sequence_bytes ≤ length area.old) }
    requires falling { (count ≤ joint_limit → Falling links.now count) × RuleNumber candidate }
    ensures { Looked
        (fitting_by table.now (packed kept) candidate wanted)
        (standing_in found.now) links.now count result area.old area.new }
{
    let at = place_among_few(found, count, table, kept, candidate, wanted)?;
    let length = read_back(links, count, at, area);
    Some(Shown {
        length,
        standing: standing_at(found, at),
    })
}

// Shows both sequences of a rule against kept rules, each in its area.
pub fn show_candidate(
    found: &mut [u64],
    links: &mut [u16],
    first: &mut [u8],
    second: &mut [u8],
    table: &Table,
    kept: Joint,
    rule: u8,
    steps: u8,
) -> BothShown
    requires work_areas { WorkAreas found.old links.old }
    requires sequence_bytes_in_bounds { (sequence_bytes ≤ length first.old) × (sequence_bytes ≤ length second.old) }
    requires rule_number { RuleNumber rule × (steps ≤ most_steps) }
    ensures shows { (rules : List Rule) (ns : List ℕ) → table.now ≡ table_of rules
        → IsSet (packed kept) ns → Others rule ns
        → BothSequences rules steps ns rule first.old second.old
        first.new second.new result }
    ensures kept { RestKept found.old links.old found.new links.new }
{
    let count = search_candidate(found, links, table, kept, rule, steps);
    let satisfying = show_sequence(found, links, first, table, count, kept, rule, true);
    let violating = show_sequence(found, links, second, table, count, kept, rule, false);
    BothShown {
        satisfying,
        violating,
    }
}
