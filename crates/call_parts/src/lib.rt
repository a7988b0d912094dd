// What the calls of both engines share: answers, the record that a call names, and the requests of a list.
#![tactic(auto)]

ghost use Rattle.std.specs.Prelude.{◌≡◌, ◌+◌, ◌*◌, ◌≤◌, ◌<◌, length, get_or, set};
ghost use Rattle.ledger.specs.Records.{records_of, keepable, shortened};
ghost use Rattle.calls.specs.Pool.{next_after};
ghost use Rattle.calls.specs.Refusals.{number_in};
ghost use Rattle.calls.specs.Step.{success, refusal, list_suits};
ghost use Rattle.call_parts.specs.Parts.{format_number, with_party, named_in, act_of, request_at, with_answer};
ghost use Rattle.call_parts.specs.Results.{refused_with};

use calls::{Answer, Refusal};
use ledger::Row;

// What a call that makes or names no record succeeds with.
pub use record_table::EMPTY_ROW;

// A refusal: ticket, address and words are 0.
pub fn refused(number: u32) -> Answer
    ensures { result ≡ refusal number }
{
    Answer {
        number,
        ticket: 0,
        address: 0,
        words: 0,
    }
}

// A head with the answer: what a call hands back.
#[derive(Clone, Copy, PartialEq, Eq)]
pub struct Outcome<H> {
    pub head: H,
    pub answer: Answer,
}

// A refusal with the head, which stays as it came.
pub fn refused_with<H: Copy>(head: H, number: u32) -> Outcome<H>
    ensures { result ≡ refused_with head number }
{
    Outcome {
        head,
        answer: refused(number),
    }
}

// Success, with the record's three.
pub fn succeeded(named: Row) -> Answer
    ensures { result ≡ success named }
{
    Answer {
        number: 0,
        ticket: named.ticket,
        address: named.address,
        words: named.words,
    }
}

// The ticket after this one, 0 after the last.
pub fn next_after(ticket: u32) -> u32
    ensures { result ≡ next_after ticket }
{
    ticket.wrapping_add(1)
}

// What stops a format: 11 for an unknown form, 8 where the lent lengths are not right, then 6 for first ticket 0.
pub fn format_test(known: bool, right: bool, first: u32) -> Result<(), Refusal>
    ensures { number_in result ≡ format_number known right first }
{
    if !known {
        return Err(Refusal::UnknownForm);
    }
    if !right {
        return Err(Refusal::BadLengths);
    }
    if first == 0 {
        return Err(Refusal::UnknownTicket);
    }
    Ok(())
}

// What stops a call of this party on a pool that is in order: 12, which comes after 11, 8 and 1.
pub fn party_test(party: u32) -> Result<(), Refusal>
    ensures { number_in result ≡ with_party 0 party }
{
    if !record_table::is_party(party) {
        return Err(Refusal::NoParty);
    }
    Ok(())
}

// What stops a call of this party: the pool's own refusal, then 12.
pub fn with_party(own: Result<(), Refusal>, party: u32) -> Result<(), Refusal>
    ensures { number_in result ≡ with_party (number_in own) party }
{
    own?;
    party_test(party)
}

// The slot of the record that a call names; refused by 6, for another party's record too, or by 7.
pub fn named_slot(table: &[u32], named: Row) -> Result<usize, Refusal>
    ensures { result ≡ named_in table.now named }
{
    let i = record_table::find_slot(table, named.ticket).ok_or(Refusal::UnknownTicket)?;
    let r = record_table::read_row(table, i);
    if r.party != named.party {
        Err(Refusal::UnknownTicket)
    } else if (r.address == named.address) & (r.words == named.words) {
        Ok(i)
    } else {
        Err(Refusal::Mismatch)
    }
}

// Whether these words of the record can be kept: from 1 to the words asked.
pub fn can_keep(named: Row, keep: u32) -> bool
    ensures { result ≡ keepable keep named }
{
    (1 <= keep) & (keep <= named.words)
}

// The record with the words that are kept of it.
pub fn shortened(named: Row, keep: u32) -> Row
    ensures { result ≡ shortened keep named }
{
    Row {
        words: keep,
        ..named
    }
}

// A request of a list: an allocation, or a release of the record that it names.
#[derive(Clone, Copy, PartialEq, Eq)]
pub enum Request {
    Ask { party: u32, words: u32 },
    Give(Row),
}

// Request i of a party's list, four words from word 4i on, if it is one.
pub fn request_at(requests: &[u32], party: u32, i: usize) -> Option<Request>
    requires { 4 * i + 3 < length requests.now }
    ensures { act_of result ≡ request_at party requests.now i }
{
    let kind = requests[4 * i];
    let x = requests[4 * i + 1];
    let y = requests[4 * i + 2];
    let z = requests[4 * i + 3];
    if (kind == 1) & (y == 0) & (z == 0) {
        return Some(Request::Ask { party, words: x });
    }
    if kind == 2 {
        return Some(Request::Give(Row {
            ticket: x,
            address: y,
            words: z,
            party,
        }));
    }
    None
}

// The answer to request i, four words from word 4i on.
pub fn put_answer(answers: &mut [u32], i: usize, x: Answer)
    requires { 4 * i + 3 < length answers.old }
    ensures { answers.new ≡ with_answer answers.old i x }
{
    answers[4 * i] = x.number;
    answers[4 * i + 1] = x.ticket;
    answers[4 * i + 2] = x.address;
    answers[4 * i + 3] = x.words;
}

// Whether the list is a multiple of four long, has at most 1,024 requests, and has room for their answers.
pub fn list_suits(requests: &[u32], answers: &[u32]) -> bool
    ensures { result ≡ list_suits requests.now answers.now }
{
    let n = requests.len();
    (n % 4 == 0) & (n <= 4096) & (n <= answers.len())
}
