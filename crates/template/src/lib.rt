// The templates of Declare rules (01, "Templates", as docs/FORMAT.md has it too; M-100). The crate `table` reads their
// table.
#![tactic(auto)]

ghost use Rattle.std.specs.Prelude.{◌≡◌};
ghost use Rattle.template.specs.Number.{number, of_number};
ghost use Rattle.template.specs.Code.Columns.{next_of};

// Templates 19 to 21 hold how often x is to occur.
#[derive(Clone, Copy)]
pub enum Template {
    Participation,
    AtMostOne,
    Init,
    End,
    RespondedExistence,
    Response,
    AlternateResponse,
    ChainResponse,
    Precedence,
    AlternatePrecedence,
    ChainPrecedence,
    CoExistence,
    Succession,
    AlternateSuccession,
    ChainSuccession,
    NotChainSuccession,
    NotSuccession,
    NotCoExistence,
    AtLeast(u8),
    AtMost(u8),
    Exactly(u8),
    Choice,
    ExclusiveChoice,
}

// The number of a template.
impl From<Template> for u8 {
    ghost from_gives = { λ template n. n ≡ number template };

    fn from(template: Template) -> u8 {
        match template {
            Template::Participation => 1,
            Template::AtMostOne => 2,
            Template::Init => 3,
            Template::End => 4,
            Template::RespondedExistence => 5,
            Template::Response => 6,
            Template::AlternateResponse => 7,
            Template::ChainResponse => 8,
            Template::Precedence => 9,
            Template::AlternatePrecedence => 10,
            Template::ChainPrecedence => 11,
            Template::CoExistence => 12,
            Template::Succession => 13,
            Template::AlternateSuccession => 14,
            Template::ChainSuccession => 15,
            Template::NotChainSuccession => 16,
            Template::NotSuccession => 17,
            Template::NotCoExistence => 18,
            Template::AtLeast(_) => 19,
            Template::AtMost(_) => 20,
            Template::Exactly(_) => 21,
            Template::Choice => 22,
            Template::ExclusiveChoice => 23,
        }
    }
}

// The kind of a step in a rule: its x, its y, or any other.
#[derive(Clone, Copy)]
pub enum Kind {
    X,
    Y,
    Other,
}

impl Kind {
    // There are so many.
    pub const COUNT: usize = 3;

    pub const ALL: [Kind; Kind::COUNT] = [Kind::X, Kind::Y, Kind::Other];
}

// One standing of a template.
#[derive(Clone, Copy)]
pub struct StandingRow {
    // The next standing on a step of each kind.
    pub moves: [u8; Kind::COUNT],
    pub satisfied: bool,
    pub broken: bool,
    // How many standings the template has.
    pub standings: u8,
}

impl StandingRow {
    // The next standing on a step of a kind.
    #[tactic(auto, unfolding(crate::specs::Code::Columns::next_of))]
    pub fn next(&self, kind: Kind) -> u8
        ensures { result ≡ next_of self.now kind }
    {
        self.moves[kind as usize]
    }
}

impl Template {
    // Templates are numbered from 1 to this.
    pub const COUNT: u8 = 23;

    // Templates from 1 to this have no y.
    pub const LAST_WITHOUT_Y: u8 = 4;

    // Templates from the one to the other count x. A count stands there in the place of y.
    pub const FIRST_COUNTING: u8 = 19;

    pub const LAST_COUNTING: u8 = 21;

    // Counts are from 1 to this.
    pub const MOST_COUNT: u8 = 14;

    // The other templates, and the most standings of these.
    pub const TABLED: usize = 20;

    pub const TABLED_STANDINGS: u8 = 4;

    // The standing in which a rule begins.
    pub const FIRST_STANDING: u8 = 0;

    // No template has more standings than this.
    pub const MOST_STANDINGS: u8 = 16;

    // The template that has the number n, with the count where it counts x.
    pub fn of_number(n: u8, count: u8) -> Option<Template>
        ensures { result ≡ of_number n count }
    {
        match n {
            1 => Some(Template::Participation),
            2 => Some(Template::AtMostOne),
            3 => Some(Template::Init),
            4 => Some(Template::End),
            5 => Some(Template::RespondedExistence),
            6 => Some(Template::Response),
            7 => Some(Template::AlternateResponse),
            8 => Some(Template::ChainResponse),
            9 => Some(Template::Precedence),
            10 => Some(Template::AlternatePrecedence),
            11 => Some(Template::ChainPrecedence),
            12 => Some(Template::CoExistence),
            13 => Some(Template::Succession),
            14 => Some(Template::AlternateSuccession),
            15 => Some(Template::ChainSuccession),
            16 => Some(Template::NotChainSuccession),
            17 => Some(Template::NotSuccession),
            18 => Some(Template::NotCoExistence),
            19 => Some(Template::AtLeast(count)),
            20 => Some(Template::AtMost(count)),
            21 => Some(Template::Exactly(count)),
            22 => Some(Template::Choice),
            23 => Some(Template::ExclusiveChoice),
            _ => None,
        }
    }
}
