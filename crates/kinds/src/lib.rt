// Templates by their numbers (01, "Templates"; M-100), and the kind of a step in a rule.
#![tactic(auto)]

ghost use Rattle.std.specs.Prelude.{◌≡◌};
ghost use Rattle.template.specs.Number.{number, counting_number};
ghost use Rattle.template.specs.Table.{lacks_y};
ghost use Rattle.template.specs.Code.Columns.{columns};
ghost use Rattle.template.specs.Sequence.{is};
ghost use Rattle.template.specs.Standing.{kind_by, kind_in};
ghost use Rattle.template.specs.Settled.{settled};

use template::{Kind, StandingRow, Template};

// Whether the template of a number counts x.
pub fn is_counting(number: u8) -> bool
    ensures { result ≡ counting_number number }
{
    (Template::FIRST_COUNTING <= number) & (number <= Template::LAST_COUNTING)
}

pub fn number_of(template: Template) -> u8
    ensures { result ≡ number template }
{
    u8::from(template)
}

pub fn lacks_y(template: Template) -> bool
    ensures { result ≡ lacks_y template }
{
    let number = number_of(template);
    (number <= Template::LAST_WITHOUT_Y) | is_counting(number)
}

// The kind of a step by two questions, is it x and is it y. Their answers are added: no branch is on the step, as 02,
// M-101 asks.
pub fn kind_by(x: bool, y: bool) -> Kind
    ensures { result ≡ kind_by x y }
{
    let not_x = !x;
    Kind::ALL[usize::from(not_x) + usize::from(not_x & !y)]
}

// The kind of a step in a rule on x and y. Where the template is lacking a y, what stands there is no step.
pub fn kind_of(lacking: bool, x: u8, y: u8, step: u8) -> Kind
    ensures { result ≡ kind_in lacking (is x) (is y) step }
{
    kind_by(step == x, !lacking & (step == y))
}

// Whether no declared step leaves a standing, by the row of it; the template has a y or is lacking one. `other` says
// whether some declared step is neither x nor y.
pub fn is_settled(lacking: bool, row: StandingRow, standing: u8, other: bool) -> bool
    ensures { (t : Template) → lacking ≡ lacks_y t → row ≡ columns t standing
        → result ≡ settled t other standing }
{
    let kept_by_y = lacking | (row.next(Kind::Y) == standing);
    let kept_by_other = !other | (row.next(Kind::Other) == standing);
    (row.next(Kind::X) == standing) & (kept_by_y & kept_by_other)
}
