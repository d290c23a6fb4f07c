// The table of templates (01, "Templates"; M-100): the rows of a template, one for each standing.
#![tactic(auto)]

ghost use Rattle.std.specs.Prelude.{◌≡◌, true, [], ◌≤◌, ◌<◌, get_or};
ghost use Rattle.template.specs.Table.{counts, held_count, up_to_last, standings};
ghost use Rattle.template.specs.Code.Columns.{columns_in, columns, rows_of, tables, tabled_row};
ghost use Rattle.template.specs.Code.Columns.{number_standings, number_row, lacked_row};
ghost use Rattle.template.specs.Number.{table_place_of};
ghost use Rattle.template.specs.Limits.{most_standings};

use kinds::number_of;
use template::{StandingRow, Template};

// The templates that do not count, in the order of their numbers, each as a table of its standings: a number of four
// hex digits, from the right the next standing on x, on y and on any other step, and a mark, which has 1 if the
// standing is satisfied, 2 if it is broken, and 4 for each standing of the template but the first. Templates 1 to 4
// have no y: the digit of y repeats the next one. Where a template lacks the standing, zeros stand before the mark.
const TABLE: [[u16; Template::TABLED_STANDINGS as usize]; Template::TABLED] = [
    [0x4001, 0x5111, 0x4000, 0x4000], // 1 Participation
    [0x9001, 0x9112, 0xA222, 0x8000], // 2 AtMostOne
    [0x8221, 0x9111, 0xA222, 0x8000], // 3 Init
    [0x4001, 0x5001, 0x4000, 0x4000], // 4 End
    [0x9021, 0x8121, 0x9222, 0x8000], // 5 RespondedExistence
    [0x5001, 0x4101, 0x4000, 0x4000], // 6 Response
    [0x9001, 0x8102, 0xA222, 0x8000], // 7 AlternateResponse
    [0x9001, 0x8202, 0xA222, 0x8000], // 8 ChainResponse
    [0x9021, 0x9111, 0xA222, 0x8000], // 9 Precedence
    [0x9021, 0x9101, 0xA222, 0x8000], // 10 AlternatePrecedence
    [0x9021, 0x9001, 0xA222, 0x8000], // 11 ChainPrecedence
    [0xD021, 0xC131, 0xC223, 0xD333], // 12 CoExistence
    [0xD031, 0xC121, 0xD221, 0xE333], // 13 Succession
    [0x9021, 0x8102, 0xA222, 0x8000], // 14 AlternateSuccession
    [0x9021, 0x8202, 0xA222, 0x8000], // 15 ChainSuccession
    [0x9001, 0x9021, 0xA222, 0x8000], // 16 NotChainSuccession
    [0x9001, 0x9121, 0xA222, 0x8000], // 17 NotSuccession
    [0xD021, 0xD131, 0xD223, 0xE333], // 18 NotCoExistence
    [0x4011, 0x5111, 0x4000, 0x4000], // 22 Choice
    [0xC021, 0xD131, 0xD223, 0xE333], // 23 ExclusiveChoice
];

// How many standings a template has, by the number of any of its standings.
fn standings_by(number: u16) -> u8
    ensures { result ≡ number_standings number }
{
    (number / 0x4000 + 1) as u8
}

// The row of a standing by its number.
fn row_by(number: u16) -> StandingRow
    ensures { result ≡ number_row number }
{
    StandingRow {
        moves: [
            (number % 0x10) as u8,
            (number / 0x10 % 0x10) as u8,
            (number / 0x100 % 0x10) as u8,
        ],
        satisfied: number / 0x1000 % 2 == 1,
        broken: number / 0x2000 % 2 == 1,
        standings: standings_by(number),
    }
}

// The row of a standing that a template with so many lacks.
fn lacked_row(standings: u8) -> StandingRow
    ensures { result ≡ lacked_row standings }
{
    StandingRow {
        moves: [0; 3],
        satisfied: false,
        broken: false,
        standings,
    }
}

// Where a template that does not count stands in the table, by its number.
fn place_of(number: u8) -> usize
    requires { 1 ≤ number }
    ensures { result ≡ table_place_of number }
{
    if number < Template::FIRST_COUNTING {
        return (number - 1) as usize;
    }
    (number - 4) as usize
}

// The row of a standing of the template at a place of the table, which the template may lack. This is the one reader of
// the table, which is written out at each read.
fn tabled_row(place: usize, standing: u8) -> StandingRow
    requires { place < 20 }
    ensures { result ≡ tabled_row (get_or tables place []) standing }
{
    let own = TABLE[place];
    if Template::TABLED_STANDINGS <= standing {
        return lacked_row(standings_by(own[0]));
    }
    row_by(own[standing as usize])
}

// The standing `next` after another, no further than `last`; 0 after a standing that the template lacks.
fn up_to_last(last: u8, standing: u8, next: u8) -> u8
    ensures { result ≡ up_to_last last standing next }
{
    if standing <= last {
        return next.min(last);
    }
    0
}

// One standing of a template that counts x: it goes no further than `last`, is satisfied from `fewest` to `most`, and
// broken above.
fn counted_row(fewest: u8, most: u8, last: u8, standing: u8) -> StandingRow
    requires { (last < most_standings) × (standing < most_standings) }
    ensures { result ≡ columns_in (counts fewest most last) true standing }
{
    let stays = up_to_last(last, standing, standing);
    StandingRow {
        moves: [up_to_last(last, standing, standing + 1), stays, stays],
        satisfied: (fewest <= standing) & (standing <= most),
        broken: (most < standing) & (standing <= last),
        standings: last + 1,
    }
}

// A count, held at the most that one can be.
fn held_count(n: u8) -> u8
    ensures { result ≡ held_count n }
{
    n.min(Template::MOST_COUNT)
}

// The row of a standing of the template.
pub fn row_of(template: Template, standing: u8) -> StandingRow
    requires { standing < most_standings }
    ensures { result ≡ columns template standing }
{
    match template {
        Template::AtLeast(n) => {
            let count = held_count(n);
            counted_row(count, count, count, standing)
        }
        Template::AtMost(n) => {
            let count = held_count(n);
            counted_row(0, count, count + 1, standing)
        }
        Template::Exactly(n) => {
            let count = held_count(n);
            counted_row(count, count, count + 1, standing)
        }
        _ => tabled_row(place_of(number_of(template)), standing),
    }
}

// The rows of the template, one for each standing. Work that needs more than one row keeps what it read.
pub fn rows_of(template: Template) -> [StandingRow; Template::MOST_STANDINGS as usize]
    ensures { result ≡ rows_of template }
{
    let mut rows = [lacked_row(0); Template::MOST_STANDINGS as usize];
    for standing in 0..Template::MOST_STANDINGS {
        rows[standing as usize] = row_of(template, standing);
    }
    rows
}

// How many standings the template has; they are numbered from 0.
pub fn standings_of(template: Template) -> u8
    ensures { result ≡ standings template }
{
    row_of(template, Template::FIRST_STANDING).standings
}
