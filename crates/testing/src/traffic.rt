// Random traffic on a pool, held to a plain ledger: a book of records, and a map of units. The lowest fit is found by
// scanning the map. It shares no code with the pools but the types of records and answers; which units a record holds is
// for the engine to say.
#![tactic(auto)]

ghost use Rattle.std.specs.Prelude.{◌≡◌, ◌+◌, ◌<◌, ◌^◌, length};

use crate::{pick, stirred};
use calls::Answer;
use ledger::Row;
use std::fmt;

// A pool with the memory lent to it.
pub trait Engine {
    fn allocate(&mut self, party: u32, words: u32) -> Answer;

    fn release(&mut self, named: Row) -> Answer;

    fn find(&self, named: Row) -> Answer;

    // Whether the pool's head is right where this is the next ticket.
    fn is_at(&self, next: u32) -> bool;

    // The most words that can be asked for.
    fn limit(&self) -> u32;

    // How many units a request takes.
    fn span(&self, words: u32) -> usize;

    // The first unit of the block at this address, and the address of a block whose first unit is this.
    fn unit_of(&self, address: u32) -> usize;

    fn address_of(&self, unit: usize) -> u32;

    // A near miss: another address and another length.
    fn near(&self, row: Row) -> Row;

    // Whether the granted words are zero; the holder then writes its ticket into all of them.
    fn hold(&mut self, granted: Row) -> bool;

    // Whether the holder's words are as it wrote them.
    fn is_intact(&self, held: Row) -> bool;
}

// ---- random calls

#[derive(Clone, Copy)]
pub enum Call {
    Allocate,
    Release,
    Find,
}

// What of a slot's record is named otherwise.
#[derive(Clone, Copy)]
pub enum Miss {
    Nothing,
    Ticket,
    Address,
    Words,
    Party,
}

// A call drawn at random: the words that it asks for or the slot whose record it names, a party, and the random number
// that the next one is drawn from.
#[derive(Clone, Copy)]
pub struct Draw {
    pub call: Call,
    pub miss: Miss,
    pub words: u32,
    pub slot: usize,
    pub party: u32,
    pub seed: u64,
}

// Of sixteen kinds six allocate, six release and four find.
fn call_of(kind: u32) -> Call {
    match kind {
        0..=5 => Call::Allocate,
        6..=11 => Call::Release,
        _ => Call::Find,
    }
}

fn miss_of(kind: u32) -> Miss {
    match kind {
        8 | 15 => Miss::Party,
        9 | 13 => Miss::Ticket,
        10 => Miss::Address,
        11 | 14 => Miss::Words,
        _ => Miss::Nothing,
    }
}

// One of four parties, the last one that there is among them; or, three times of thirty-two, none.
fn some_party(n: u32) -> u32 {
    match n {
        0 => 0,
        1 => 256,
        2 => 4294967295,
        3 => 255,
        _ => n % 3 + 1,
    }
}

// Words stay below `most`, but for kind 0, which may ask for more than any pool has.
pub fn drawn(seed: u64, most: u64, slots: usize) -> Draw {
    let a = stirred(seed);
    let b = stirred(a);
    let c = stirred(b);
    let kind = pick(a, 16);
    Draw {
        call: call_of(kind),
        miss: miss_of(kind),
        words: pick(b, if kind == 0 { 20000 } else { most }),
        slot: pick(b, slots as u64) as usize,
        party: some_party(pick(c, 32)),
        seed: stirred(c),
    }
}

// What a call names: a slot's record as it is, under any ticket, with the address or the length of a near miss, or by
// any party.
pub fn chosen(row: Row, near: Row, draw: Draw, next: u32) -> Row {
    match draw.miss {
        Miss::Nothing => row,
        Miss::Ticket => Row {
            ticket: pick(draw.seed, u64::from(next)),
            ..row
        },
        Miss::Address => Row {
            address: near.address,
            ..row
        },
        Miss::Words => Row {
            words: near.words,
            ..row
        },
        Miss::Party => Row {
            party: draw.party,
            ..row
        },
    }
}

// ---- the plain ledger

// A slot of the book that holds no record.
pub const EMPTY: Row = Row {
    ticket: 0,
    address: 0,
    words: 0,
    party: 0,
};

// The lowest unit from which so many are free.
pub fn first_run(map: &[bool], need: usize) -> Option<usize> {
    let mut run = 0usize;
    for (i, held) in map.iter().enumerate() {
        run = if *held { 0 } else { run.wrapping_add(1) };
        if run == need {
            return Some(i.wrapping_add(1).wrapping_sub(run));
        }
    }
    None
}

// Why the ledger refuses a call.
#[derive(Clone, Copy)]
enum Wrong {
    NoParty,
    BadSize,
    NoRecord,
    NoTicket,
    NoRoom,
    UnknownTicket,
    Mismatch,
}

impl Wrong {
    // The numbers once more, and not the pools' own, so that a pool that tells another is seen.
    fn number(self) -> u32 {
        match self {
            Wrong::NoParty => 12,
            Wrong::BadSize => 2,
            Wrong::NoRecord => 3,
            Wrong::NoTicket => 4,
            Wrong::NoRoom => 5,
            Wrong::UnknownTicket => 6,
            Wrong::Mismatch => 7,
        }
    }
}

fn of_party(party: u32) -> Result<(), Wrong> {
    match party {
        1..=255 => Ok(()),
        _ => Err(Wrong::NoParty),
    }
}

// The record that is due, as the pool has to answer.
fn answered(due: Result<Row, Wrong>) -> Answer {
    match due {
        Ok(row) => Answer {
            number: 0,
            ticket: row.ticket,
            address: row.address,
            words: row.words,
        },
        Err(why) => Answer {
            number: why.number(),
            ticket: 0,
            address: 0,
            words: 0,
        },
    }
}

// What a round has come to: the next ticket, the last random number, and the counts.
#[derive(Clone, Copy)]
pub struct Tally {
    pub next: u32,
    pub seed: u64,
    pub calls: u64,
    pub accepted: u64,
    pub differences: u64,
}

impl fmt::Display for Tally {
    fn fmt<W: fmt::Write>(&self, f: &mut fmt::Formatter<W>) -> fmt::Result {
        write!(
            f,
            "{} calls, {} differences, {} accepted",
            self.calls, self.differences, self.accepted
        )
    }
}

// A pool, the book and the map that it is held to, and what came of the calls so far.
struct Round<'a, E> {
    pool: &'a mut E,
    book: &'a mut [Row],
    map: &'a mut [bool],
    tally: Tally,
}

impl<E: Engine> Round<'_, E> {
    fn slot_of(&self, ticket: u32) -> Option<usize> {
        self.book.iter().position(|row| row.ticket == ticket)
    }

    fn row_at(&self, slot: usize) -> Row {
        self.book.get(slot).copied().unwrap_or(EMPTY)
    }

    // Writes a row into a slot, whose units become held or free.
    fn enter(&mut self, slot: Option<usize>, row: Row, units: Row, held: bool)
        ensures { self.new.tally ≡ self.old.tally }
    {
        if let Some(place) = slot.and_then(|i| self.book.get_mut(i)) {
            *place = row;
        }
        let from = self.pool.unit_of(units.address);
        let to = from.wrapping_add(self.pool.span(units.words));
        if let Some(part) = self.map.get_mut(from..to) {
            part.fill(held);
        }
    }

    // What a party's allocation has to answer.
    fn plan(&self, party: u32, words: u32) -> Result<Row, Wrong> {
        of_party(party)?;
        if words == 0 || words > self.pool.limit() {
            return Err(Wrong::BadSize);
        }
        self.slot_of(0).ok_or(Wrong::NoRecord)?;
        if self.tally.next == 0 {
            return Err(Wrong::NoTicket);
        }
        let start = first_run(self.map, self.pool.span(words)).ok_or(Wrong::NoRoom)?;
        Ok(Row {
            ticket: self.tally.next,
            address: self.pool.address_of(start),
            words,
            party,
        })
    }

    // What a release or a find has to answer.
    fn verdict(&self, named: Row) -> Result<Row, Wrong> {
        of_party(named.party)?;
        if named.ticket == 0 {
            return Err(Wrong::UnknownTicket);
        }
        let slot = self.slot_of(named.ticket).ok_or(Wrong::UnknownTicket)?;
        let row = self.row_at(slot);
        if row.party != named.party {
            return Err(Wrong::UnknownTicket);
        }
        if row != named {
            return Err(Wrong::Mismatch);
        }
        Ok(row)
    }

    // A call's answer, and whether all was as the ledger has it.
    fn count(&mut self, answer: Answer, agrees: bool)
        requires { self.old.tally.calls + 1 < 2 ^ 64 }
        ensures { self.new.tally.calls ≡ self.old.tally.calls + 1 }
    {
        let tally = self.tally;
        let all = agrees && self.pool.is_at(tally.next);
        self.tally = Tally {
            calls: tally.calls + 1,
            accepted: tally.accepted.wrapping_add(u64::from(answer.number == 0)),
            differences: tally.differences.wrapping_add(u64::from(!all)),
            ..tally
        };
    }

    // The next ticket wraps to 0, which is no ticket.
    fn allocate(&mut self, party: u32, words: u32)
        requires { self.old.tally.calls + 1 < 2 ^ 64 }
        ensures { self.new.tally.calls ≡ self.old.tally.calls + 1 }
    {
        let due = self.plan(party, words);
        let answer = self.pool.allocate(party, words);
        let mut clear = true;
        if let Ok(row) = due {
            self.enter(self.slot_of(0), row, row, true);
            clear = self.pool.hold(row);
            self.tally.next = self.tally.next.wrapping_add(1);
        }
        self.count(answer, answer == answered(due) && clear);
    }

    fn release(&mut self, named: Row)
        requires { self.old.tally.calls + 1 < 2 ^ 64 }
        ensures { self.new.tally.calls ≡ self.old.tally.calls + 1 }
    {
        let due = self.verdict(named);
        let kept = due.map_or(true, |row| self.pool.is_intact(row));
        let answer = self.pool.release(named);
        if let Ok(row) = due {
            self.enter(self.slot_of(row.ticket), EMPTY, row, false);
        }
        self.count(answer, answer == answered(due) && kept);
    }

    fn find(&mut self, named: Row)
        requires { self.old.tally.calls + 1 < 2 ^ 64 }
        ensures { self.new.tally.calls ≡ self.old.tally.calls + 1 }
    {
        let due = self.verdict(named);
        let kept = due.map_or(true, |row| self.pool.is_intact(row));
        let answer = self.pool.find(named);
        self.count(answer, answer == answered(due) && kept);
    }

    // One call, drawn at random.
    fn turn(&mut self, most: u64)
        requires { self.old.tally.calls + 1 < 2 ^ 64 }
        ensures { self.new.tally.calls ≡ self.old.tally.calls + 1 }
    {
        let draw = drawn(self.tally.seed, most, self.book.len());
        self.tally.seed = draw.seed;
        let row = self.row_at(draw.slot);
        let named = chosen(row, self.pool.near(row), draw, self.tally.next);
        match draw.call {
            Call::Allocate => self.allocate(draw.party, draw.words),
            Call::Release => self.release(named),
            Call::Find => self.find(named),
        }
    }
}

// What a round starts from: the answer to the pool's format, of which a refusal is a difference, its first ticket, the
// number that requested words stay below, and the calls.
#[derive(Clone, Copy)]
pub struct Start {
    pub formatted: Answer,
    pub next: u32,
    pub most: u64,
    pub count: u32,
}

// So many calls at random on a pool with nothing in it, then the release of every slot of the book; an empty one is
// refused.
pub fn play<E: Engine>(pool: &mut E, book: &mut [Row], map: &mut [bool], start: Start) -> Tally
    ensures { result.calls ≡ start.count + length book.old }
{
    let slots = book.len();
    let mut round = Round {
        pool,
        book,
        map,
        tally: Tally {
            next: start.next,
            seed: start.most,
            calls: 0,
            accepted: 0,
            differences: u64::from(start.formatted.number != 0),
        },
    };
    for _ in 0..start.count {
        round.turn(start.most);
    }
    for slot in 0..slots {
        round.release(round.row_at(slot));
    }
    let Round {
        pool: _,
        book: _,
        map: _,
        tally,
    } = round;
    tally
}
