// Shows sequences behind the fate of a rule (01, "Shown sequences"): one that satisfies it and the rules kept before
// it, and one that satisfies those and not it. A set of rules is a joint standing: rule n is in it if its standing
// there is 1.
#![tactic(auto)]

ghost use Rattle.std.specs.Prelude.{◌≡◌, true, List, ℕ, ◌≤◌, eqb, length, position};
ghost use Rattle.lists.specs.Parts.{before};
ghost use Rattle.refusals.specs.Number.{result_number};
ghost use Rattle.rule_file.specs.Contents.{rules_of, steps_of, has_rule};
ghost use Rattle.ranking.specs.Ranked.{ranked_file};
ghost use Rattle.search.specs.Areas.{WorkAreas, RestKept};
ghost use Rattle.search.specs.Limits.{sequence_bytes};
ghost use Rattle.shown.specs.Shows.{kept_before, Shows};
ghost use Rattle.shown.specs.Code.Sequences.{BothSequences};

use answer::{areas_fit, write_answer};
use move_table::table_of;
use passes::first_pass;
use ranking::{RankedFile, read_ranked};
use reading::rule_refusal;
use refusals::{Refusal, refuse_if};
use sequences::show_candidate;
use shown::BothShown;

// The place of a rule in an order.
fn place_of(order: &[u8], rule: u8) -> Option<usize>
    ensures { result ≡ position (λ n. eqb n rule) order.now }
{
    order.iter().position(|&n| n == rule)
}

// The rules before a rule in an order.
fn before(order: &[u8], rule: u8) -> &[u8]
    ensures { result.now ≡ before rule order.now }
{
    match place_of(order, rule) {
        Some(place) => &order[..place],
        None => order,
    }
}

// Shows both sequences of a rule of an accepted file, against the rules kept before it.
fn show_ranked(
    found: &mut [u64],
    links: &mut [u16],
    satisfying: &mut [u8],
    violating: &mut [u8],
    ranked: &RankedFile,
    rule: u8,
) -> BothShown
    requires work_areas { WorkAreas found.old links.old }
    requires sequence_bytes_in_bounds { (sequence_bytes ≤ length satisfying.old)
        × (sequence_bytes ≤ length violating.old) }
    requires by_index { (bs : List ℕ) × (ranked.now ≡ ranked_file bs) × (has_rule bs rule ≡ true) }
    ensures shows { (bs : List ℕ) → ranked.now ≡ ranked_file bs → has_rule bs rule ≡ true
        → BothSequences (rules_of bs) (steps_of bs) (kept_before bs rule) rule
        satisfying.old violating.old satisfying.new violating.new result }
    ensures kept { RestKept found.old links.old found.new links.new }
{
    let steps = ranked.file.steps as u8;
    let table = table_of(ranked.file.rules);
    let better = before(&ranked.order[..ranked.file.count], rule);
    let first = first_pass(found, links, &table, better, steps);
    show_candidate(
        found,
        links,
        satisfying,
        violating,
        &table,
        first.kept.set,
        rule,
        steps,
    )
}

// Shows sequences behind the fate of a rule: writes the sequences that there are from the start of their areas and the
// eight numbers of the answer, or refuses and writes nowhere. What the two work areas hold before does not matter. What
// they hold after an accepted call is left open, up to the numbers that are asked for. Of the sequences that fit, the
// first is shown: the shortest, and among these the one whose first differing step has the smaller number.
pub fn show(
    file: &[u8],
    rule: u32,
    found: &mut [u64],
    links: &mut [u16],
    satisfying: &mut [u8],
    violating: &mut [u8],
    answer: &mut [u64],
) -> Result<(), Refusal>
    ensures { Shows file.now rule
        found.old links.old
        satisfying.old violating.old answer.old
        found.new links.new
        satisfying.new violating.new answer.new (result_number result) }
{
    let fit = areas_fit(
        found.len(),
        links.len(),
        satisfying.len(),
        violating.len(),
        answer.len(),
    );
    refuse_if(!fit, Refusal::ShortArea)?;
    let ranked = read_ranked(file)?;
    rule_refusal(ranked.file.count, rule)?;
    let shown = show_ranked(found, links, satisfying, violating, &ranked, rule as u8);
    write_answer(answer, shown);
    Ok(())
}
