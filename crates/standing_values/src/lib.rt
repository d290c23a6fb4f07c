// The value and the activation state of a rule in each of its standings (01, "Monitor"; M-103).
#![tactic(auto)]

ghost use Rattle.std.specs.Prelude.{◌≡◌, Bool, ◌<◌};
ghost use Rattle.template.specs.Table.{lacks_y};
ghost use Rattle.template.specs.Settled.{declared_kind};
ghost use Rattle.template.specs.Code.Columns.{rows_of, LowRows};
ghost use Rattle.template.specs.Limits.{most_standings};
ghost use Rattle.rule.specs.declared.Rule.{Rule};
ghost use Rattle.values.specs.Value.{value_number, value_by, value_of};
ghost use Rattle.values.specs.Activation.{permitted_kind, activation_of, changes_activation};
ghost use Rattle.values.specs.Progress.{has_other};
ghost use Rattle.values.specs.Code.Activations.{activations_of};

use kinds::{is_settled, lacks_y};
use table::rows_of;
use template::{Kind, StandingRow, Template};
use values::Value;

pub fn value_number(value: Value) -> u8
    ensures { result ≡ value_number value }
{
    value as u8
}

// The value where the run does or does not satisfy the rule, and no declared step leaves the standing or some one
// does.
fn value_by(satisfied: bool, settled: bool) -> Value
    ensures { result ≡ value_by satisfied settled }
{
    match (settled, satisfied) {
        (true, true) => Value::PermanentlySatisfied,
        (true, false) => Value::PermanentlyViolated,
        (false, true) => Value::TemporarilySatisfied,
        (false, false) => Value::TemporarilyViolated,
    }
}

// Whether so many declared steps are more than the rule's own: its x, and its y where the template is not lacking one.
pub fn has_other(lacking: bool, steps: usize) -> bool
    ensures { (rule : Rule) → lacking ≡ lacks_y rule.template → result ≡ has_other rule steps }
{
    if lacking {
        return 1 < steps;
    }
    2 < steps
}

// The value of a rule in a standing, by the rows of its template, which has a y or is lacking one. `other` says whether
// some declared step is neither the rule's x nor its y.
pub fn value_in(
    lacking: bool,
    rows: &[StandingRow; Template::MOST_STANDINGS as usize],
    other: bool,
    standing: u8,
) -> Value
    requires { standing < most_standings }
    ensures { (t : Template) → lacking ≡ lacks_y t → rows.now ≡ rows_of t
        → result ≡ value_of t other standing }
{
    let row = rows[standing as usize];
    let settled = is_settled(lacking, row, standing, other);
    value_by(row.satisfied, settled)
}

// Whether a step of a kind is permitted in a standing, by the rows of the template: such a step is declared, and the
// standing to which it leads is not broken.
fn permits(
    rows: &[StandingRow; Template::MOST_STANDINGS as usize],
    declared: bool,
    standing: u8,
    kind: Kind,
) -> bool
    requires { LowRows rows.now × (standing < most_standings) }
    ensures { (t : Template) (other : Bool) → rows.now ≡ rows_of t
        → declared ≡ declared_kind t other kind → result ≡ permitted_kind t other standing kind }
{
    let row = rows[standing as usize];
    let next = rows[row.next(kind) as usize];
    declared & !next.broken
}

// The activation state of a rule in a standing as one number: the value, and which kinds of steps are permitted.
pub fn activation_in(
    lacking: bool,
    rows: &[StandingRow; Template::MOST_STANDINGS as usize],
    other: bool,
    standing: u8,
) -> u8
    requires { LowRows rows.now × (standing < most_standings) }
    ensures { (t : Template) → lacking ≡ lacks_y t → rows.now ≡ rows_of t
        → result ≡ activation_of t other standing }
{
    let value = value_number(value_in(lacking, rows, other, standing));
    let on_x = permits(rows, true, standing, Kind::X);
    let on_y = permits(rows, !lacking, standing, Kind::Y);
    let on_other = permits(rows, other, standing, Kind::Other);
    value + 4 * u8::from(on_x) + 8 * u8::from(on_y) + 16 * u8::from(on_other)
}

// Whether a step from one standing to another changes the activation state. For most rules a step keeps the standing,
// which is asked first, so that no row is read.
pub fn changes_activation(template: Template, other: bool, before: u8, after: u8) -> bool
    requires { (before < most_standings) × (after < most_standings) }
    ensures { result ≡ changes_activation template other before after }
{
    if before == after {
        return false;
    }
    let lacking = lacks_y(template);
    let rows = rows_of(template);
    let state = activation_in(lacking, &rows, other, before);
    state != activation_in(lacking, &rows, other, after)
}

// The activation states in all standings.
pub fn activations_of(
    lacking: bool,
    rows: &[StandingRow; Template::MOST_STANDINGS as usize],
    other: bool,
) -> [u8; Template::MOST_STANDINGS as usize]
    requires { LowRows rows.now }
    ensures { (t : Template) → lacking ≡ lacks_y t → rows.now ≡ rows_of t
        → result ≡ activations_of t other }
{
    let mut states = [0u8; Template::MOST_STANDINGS as usize];
    for standing in 0..Template::MOST_STANDINGS {
        states[standing as usize] = activation_in(lacking, rows, other, standing);
    }
    states
}
