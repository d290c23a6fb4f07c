// Why an input is refused (01, "Refused inputs", as docs/FORMAT.md has it too; M-100), with the number that 01 gives
// each refusal.
#![tactic(auto)]

ghost use Rattle.std.specs.Prelude.{◌≡◌, cond};
ghost use Rattle.refusals.specs.Number.{refusal_number, result_number};

#[derive(Clone, Copy, Debug, PartialEq, Eq)]
pub enum Refusal {
    // A lent area is too short.
    ShortArea = 1,
    // The file ends inside a field.
    FileEnds = 2,
    OtherTag = 3,
    StepAfterRule = 4,
    TooManySteps = 5,
    BadName = 6,
    NameUsed = 7,
    TooManyRules = 8,
    BadLength = 9,
    NoTemplate = 10,
    // x or y is not declared, or they are the same.
    BadSteps = 11,
    BadWeight = 12,
    // The file declares no step.
    NoStep = 13,
    // The file has no rule of this number.
    NoRule = 14,
    UndeclaredStep = 15,
    // An entry of a watch list holds a standing that its rule's template lacks.
    UnknownStanding = 16,
    // The count of a rule is not from 1 to 14. It is tested after 10 and before 11.
    BadCount = 17,
}

impl From<Refusal> for u8 {
    ghost from_gives = { λ refusal number. number ≡ refusal_number refusal };

    fn from(refusal: Refusal) -> u8 {
        refusal as u8
    }
}

// Refuses where a fault is there.
pub fn refuse_if(there: bool, refusal: Refusal) -> Result<(), Refusal>
    ensures { result_number result ≡ cond there (refusal_number refusal) 0 }
{
    if there { Err(refusal) } else { Ok(()) }
}

// What a C entry gives back: the number of the refusal, and 0 where nothing is refused.
pub fn number_of(given: Result<(), Refusal>) -> u8
    ensures { result ≡ result_number given }
{
    match given {
        Ok(()) => 0,
        Err(refusal) => u8::from(refusal),
    }
}

// The number where the fault is there, and what the later tests found where it is not. By number: it promises its
// answer for every number, also for one that no refusal has.
pub fn fault(there: bool, number: u8, later: u8) -> u8
    ensures { result ≡ cond there number later }
{
    if there { number } else { later }
}
