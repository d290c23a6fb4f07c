// The answer of showing (01, "Shown sequences"; M-100): the areas that are lent for it, and four numbers for each
// sequence.
#![tactic(auto)]

ghost use Rattle.std.specs.Prelude.{◌≡◌, ◌++◌, ◌+◌, ◌≤◌, length, take, drop};
ghost use Rattle.refusals.specs.Refusal.{written_over};
ghost use Rattle.shown.specs.Answer.{shown_numbers, answer_numbers};
ghost use Rattle.shown.specs.Limits.{shown_size, answer_size};
ghost use Rattle.shown.specs.Shows.{show_areas_fit};

use exploring::work_areas_fit;
use shown::{BothShown, Shown};

// What is lent beside the work areas (01, "Refused inputs"): bytes for each of the two sequences, and numbers for the
// answer, so many for a sequence.
const SEQUENCE_BYTES: usize = 4095;

const ANSWER_NUMBERS: usize = 8;

const SHOWN_NUMBERS: usize = 4;

// Whether the areas lent are long enough.
#[tactic(auto, unfolding(shown::specs::Shows::show_areas_fit))]
pub fn areas_fit(
    found: usize,
    links: usize,
    satisfying: usize,
    violating: usize,
    answer: usize,
) -> bool
    ensures { result ≡ show_areas_fit found links satisfying violating answer }
{
    work_areas_fit(found, links)
        && SEQUENCE_BYTES <= satisfying
        && SEQUENCE_BYTES <= violating
        && ANSWER_NUMBERS <= answer
}

// Presence, length and the two words of the joint standing.
fn shown_numbers(shown: Option<Shown>) -> [u64; SHOWN_NUMBERS]
    ensures { result ≡ shown_numbers shown }
{
    match shown {
        None => [0, 0, 0, 0],
        Some(Shown { length, standing }) => [1, length as u64, standing.first, standing.second],
    }
}

// Writes what is said of a sequence at a place of the answer.
fn write_shown(answer: &mut [u64], at: usize, shown: Option<Shown>)
    requires { at + shown_size ≤ length answer.old }
    ensures { answer.new
        ≡ take at answer.old ++ shown_numbers shown ++ drop (at + shown_size) answer.old }
{
    let numbers = shown_numbers(shown);
    answer[at..at + SHOWN_NUMBERS].copy_from_slice(&numbers);
}

// Writes the eight numbers of an answer.
pub fn write_answer(answer: &mut [u64], shown: BothShown)
    requires { answer_size ≤ length answer.old }
    ensures { answer.new ≡ written_over (answer_numbers shown) answer.old }
{
    write_shown(answer, 0, shown.satisfying);
    write_shown(answer, SHOWN_NUMBERS, shown.violating);
}
