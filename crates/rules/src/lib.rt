// Why a call is refused: each reason by its name, with the number that it gives (document 01, "Numbers given back"). 0 is success.
#![tactic(auto)]

ghost use Rattle.std.specs.Prelude.{◌≡◌, cond, Ok, Err};
ghost use Rattle.rules.specs.Reasons.{number, said};
ghost use Rattle.rules.specs.Answer.{says};
ghost use Rattle.rules.specs.Refusals.{answered, at_none};

// The reasons by their names, in the order of their numbers. 90 and 91 are numbers of our own: what `touched` compares are images of other shapes, or its
// flags are not one for each entry.
#[derive(Clone, Copy, PartialEq, Eq, Debug)]
pub enum Reason {
    WrongLength = 1,
    WrongVersion = 2,
    WrongCopy = 3,
    NoShell = 4,
    WrongShell = 5,
    WrongSize = 6,
    WrongSecr = 7,
    WrongDigit = 8,
    WrongTable = 9,
    BrokenChain = 10,
    SharedSector = 11,
    WrongCheckDigit = 12,
    NoProduct = 20,
    WrongRoom = 21,
    OtherKind = 22,
    WrongExtent = 23,
    NoField = 25,
    TooLarge = 26,
    Blocked = 27,
    NoMark = 28,
    NoDate = 29,
    NoStamp = 30,
    OtherShape = 90,
    WrongFlags = 91,
}

impl Reason {
    // The number that a refusal gives: the enum's own, which `as` alone tells.
    pub fn number(self) -> usize
        ensures { result ≡ number self }
    {
        self as usize
    }

    // The refusal for it that names an entry.
    pub fn at(self, entry: usize) -> Refusal
        ensures { result ≡ record { reason = self; entry = entry } }
    {
        Refusal {
            reason: self,
            entry,
        }
    }
}

// The refusal of a rule that is not kept, by a reason or by a number.
pub fn need<R: Drop>(reason: R, kept: bool) -> Result<(), R>
    ensures { result ≡ cond kept (Ok tt) (Err reason) }
{
    if kept { Ok(()) } else { Err(reason) }
}

// The number that a call gives back: 0, or that of its reason.
pub fn said<T>(done: &Result<T, Reason>) -> usize
    ensures { result ≡ said done.now }
{
    match done {
        Ok(_) => 0,
        Err(reason) => reason.number(),
    }
}

// Why a call was refused, and the entry that it names: 0 where it names none. A number and no `Option`: document 01 gives "an entry, 0 where none is named",
// and each contract, C and the desk say it so, which an `Option` would be turned back to at each use.
#[derive(Clone, Copy, PartialEq, Eq, Debug)]
pub struct Refusal {
    pub reason: Reason,
    pub entry: usize,
}

// A refusal that names no entry.
impl From<Reason> for Refusal {
    ghost from_gives = { λ r s. s ≡ at_none r };

    fn from(reason: Reason) -> Refusal {
        Refusal { reason, entry: 0 }
    }
}

// What a call answers that gives no other value: a number and an entry, 0 and 0 for success. It is C's card_answer.
#[repr(C)]
#[derive(Drop)]
pub struct Answer {
    pub number: usize,
    pub entry: usize,
}

impl<T: Drop> From<Result<T, Refusal>> for Answer {
    ghost from_gives = { λ r a. a ≡ answered r };

    fn from(done: Result<T, Refusal>) -> Answer {
        match done {
            Ok(_) => Answer {
                number: 0,
                entry: 0,
            },
            Err(refusal) => Answer {
                number: refusal.reason.number(),
                entry: refusal.entry,
            },
        }
    }
}

// A refusal that names no entry.
impl From<Result<(), Reason>> for Answer {
    ghost from_gives = { λ r a. a ≡ says (said r) 0 };

    fn from(done: Result<(), Reason>) -> Answer {
        let number = said(&done);
        Answer { number, entry: 0 }
    }
}
