// What every call answers.
#![tactic(auto)]

ghost use Rattle.std.specs.Prelude.{◌≡◌};
ghost use Rattle.calls.specs.Step.{refusal};
ghost use Rattle.calls.specs.Refusals.{refusal_number};

// A number of document 01's table, with ticket, address and words; the last three are 0 in a refusal.
#[derive(Clone, Copy, PartialEq, Eq)]
pub struct Answer {
    pub number: u32,
    pub ticket: u32,
    pub address: u32,
    pub words: u32,
}

// Why a call is refused, each with its number in document 01's table. 10 is none of them: it ends no call on a pool.
#[derive(Clone, Copy, PartialEq, Eq)]
pub enum Refusal {
    Damaged = 1,
    BadSize = 2,
    NoRecord = 3,
    NoTicket = 4,
    NoRoom = 5,
    UnknownTicket = 6,
    Mismatch = 7,
    BadLengths = 8,
    BadRequest = 9,
    UnknownForm = 11,
    NoParty = 12,
}

impl Refusal {
    pub fn number(self) -> u32
        ensures { result ≡ refusal_number self }
    {
        self as u32
    }
}

impl From<Refusal> for Answer {
    ghost from_gives = { λ r x. x ≡ refusal (refusal_number r) };

    fn from(why: Refusal) -> Answer {
        Answer {
            number: why.number(),
            ticket: 0,
            address: 0,
            words: 0,
        }
    }
}
