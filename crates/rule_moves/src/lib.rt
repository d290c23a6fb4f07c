// How a rule moves by each step of a file, and which steps are relevant (02, M-101, M-103), in words: a pass over a run
// reads them and asks nothing else.
#![tactic(auto)]

ghost use Rattle.std.specs.Prelude.{◌≡◌, Bool, get_or};
ghost use Rattle.template.specs.Table.{lacks_y};
ghost use Rattle.template.specs.Code.Columns.{column, rows_of, LowRows};
ghost use Rattle.values.specs.Code.Activations.{activations_of};
ghost use Rattle.values.specs.Code.Moves.{next_word, changes_word, moves_of};

use kinds::kind_of;
use rule::Rule;
use rule_file::RuleFile;
use template::{Kind, StandingRow, Template};
use values::RuleMoves;
use words::{at_place, with_place};

// In each standing the next one on a step of a kind.
fn next_word(rows: &[StandingRow; Template::MOST_STANDINGS as usize], kind: Kind) -> u64
    requires { LowRows rows.now }
    ensures { (t : Template) → rows.now ≡ rows_of t → result ≡ next_word t kind }
{
    let mut word = 0u64;
    for standing in 0..Template::MOST_STANDINGS {
        word = with_place(word, standing, rows[standing as usize].next(kind));
    }
    word
}

// 1 where a step that leads to these next standings changes the activation state.
fn changes_word(next: u64, states: &[u8; Template::MOST_STANDINGS as usize]) -> u64
    ensures { (t : Template) (other : Bool) (k : Kind) → next ≡ next_word t k
        → states.now ≡ activations_of t other → result ≡ changes_word t other k }
{
    let mut word = 0u64;
    for standing in 0..Template::MOST_STANDINGS {
        let before = standing as usize;
        let after = at_place(next, standing) as usize;
        word = with_place(word, standing, u8::from(states[before] != states[after]));
    }
    word
}

// The word of a kind, where there is one for each.
fn at_kind(words: &[u64; Kind::COUNT], kind: Kind) -> u64
    ensures { result ≡ get_or words.now (column kind) 0 }
{
    words[kind as usize]
}

// The moves of a rule, by the rows of its template, which has a y or is lacking one, and the activation states in all
// standings. The kind of a step is asked once.
pub fn moves_of(
    rule: Rule,
    lacking: bool,
    rows: &[StandingRow; Template::MOST_STANDINGS as usize],
    states: &[u8; Template::MOST_STANDINGS as usize],
) -> RuleMoves
    requires { (lacking ≡ lacks_y rule.template) × (rows.now ≡ rows_of rule.template) }
    ensures { (other : Bool) → states.now ≡ activations_of rule.template other
        → result ≡ moves_of rule other }
{
    let words = [
        next_word(rows, Kind::X),
        next_word(rows, Kind::Y),
        next_word(rows, Kind::Other),
    ];
    let marks = [
        changes_word(words[0], states),
        changes_word(words[1], states),
        changes_word(words[2], states),
    ];
    let mut next = [0u64; RuleFile::MOST_STEPS];
    let mut changes = [0u64; RuleFile::MOST_STEPS];
    for step in 0..RuleFile::MOST_STEPS {
        let kind = kind_of(lacking, rule.x, rule.y, step as u8);
        next[step] = at_kind(&words, kind);
        changes[step] = at_kind(&marks, kind);
    }
    RuleMoves { next, changes }
}
