// Requests on a sound segment pool: what an allocation, a release and a trim do, one or a list of them, and the outcomes
// that they come to. The calls of segment_pool check the pool first.
#![tactic(auto)]

ghost use Rattle.std.specs.Prelude.{◌≡◌, true, [], ◌+◌, ◌*◌, ◌/◌, ◌%◌, ◌<◌, ◌≤◌, length, Ok};
ghost use Rattle.ledger.specs.Records.{is_party, keepable, shortened};
ghost use Rattle.calls.specs.Pool.{sound};
ghost use Rattle.calls.specs.Step.{ask, give, cut, answer_to, pool_after, partied};
ghost use Rattle.calls.specs.Engines.{segment_engine};
ghost use Rattle.calls.specs.Refusals.{refusal_number, number_in};
ghost use Rattle.call_parts.specs.Parts.{named_in, act_of, request_at, with_answer};
ghost use Rattle.call_parts.specs.Results.{acted, ran};
ghost use Rattle.segment_check.specs.Gate.{segment_pool};
ghost use Rattle.segment_requests.specs.Granting.{Grantable};
ghost use Rattle.segment_requests.specs.Outcomes.{handed, grant_outcome, release_outcome, effect_in, places_in};
ghost use Rattle.segment_requests.specs.Outcomes.{places_asked};

use call_parts::{Request, refused_with};
use calls::{Answer, Refusal};
use ledger::Row;
use segment_check::Head;

// What a call hands back.
pub type Outcome = call_parts::Outcome<Head>;

// An outcome with the places that the search looked at: what an allocation hands back.
#[derive(Clone, Copy)]
pub struct Allocation {
    pub head: Head,
    pub answer: Answer,
    pub places: u32,
}

// ---- allocate

// The effect of an allocation that is refused: no address, and its number in the upper half.
fn no_effect(refusal: Refusal) -> u32
    ensures { result / 65536 ≡ refusal_number refusal }
{
    65536 * refusal.number()
}

// Takes the first words of the free block that was found, under the next ticket. What an allocation has come to, as
// far as its caller does not know it, is one number, its effect: a struct would come back through memory, and what is
// read there at once costs a wait.
fn place(
    head: Head,
    s: u32,
    arena: &mut [i32],
    table: &mut [u32],
    index: &mut [u32],
    party: u32,
    words: u32,
    slot: usize,
    at: usize,
) -> u32
    requires { Grantable head s arena.old table.old index.old party words slot at }
    ensures { handed s (grant_outcome head words result) arena.new table.new index.new []
        ≡ acted segment_engine (ask party words)
        (segment_pool s head arena.old table.old index.old) }
{
    let n = record_table::span_of(segment_check::WORDS, words);
    let segments = segment_index::segments_of(s, arena.len());
    segment_cores::allot(arena, index, segments, at, n);
    let address = (at + 1) as u32;
    let new = Row {
        ticket: head.next,
        address,
        words,
        party,
    };
    record_table::write_row(table, slot, new);
    address
}

// An effect, and above its 32 bits the places that the search looked at.
fn with_places(effect: u32, places: usize) -> u64
    requires { places < 65536 }
    ensures { (effect_in result ≡ effect) × (places_in result ≡ places) }
{
    effect as u64 + 4294967296 * (places as u64)
}

// A party's allocation on a sound pool: the tests in the order of their numbers, then the search. What is refused before the
// search has looked at no place.
pub fn grant(
    head: Head,
    s: u32,
    arena: &mut [i32],
    table: &mut [u32],
    index: &mut [u32],
    party: u32,
    words: u32,
) -> u64
    requires { (sound segment_engine (segment_pool s head arena.old table.old index.old) ≡ true) × (is_party party ≡ true) }
    ensures index_after { handed s (grant_outcome head words (effect_in result)) arena.new table.new index.new []
        ≡ acted segment_engine (ask party words)
        (segment_pool s head arena.old table.old index.old) }
    ensures result_value { places_in result
        ≡ places_asked (segment_pool s head arena.old table.old index.old)
        party words }
{
    if (words == 0) | (16384 < words) {
        return with_places(no_effect(Refusal::BadSize), 0);
    }
    let Some(slot) = record_table::empty_slot(table) else {
        return with_places(no_effect(Refusal::NoRecord), 0);
    };
    let next = head.next;
    if next == 0 {
        return with_places(no_effect(Refusal::NoTicket), 0);
    }
    segment_check::ranged(arena);
    let segments = segment_index::segments_of(s, arena.len());
    let fit = segment_cores::search(arena, index, segments, words + 1);
    let at = fit.at;
    if at == arena.len() {
        return with_places(no_effect(Refusal::NoRoom), fit.places);
    }
    let effect = place(head, s, arena, table, index, party, words, slot, at);
    with_places(effect, fit.places)
}

// The outcome of an allocation with this effect. An answer gives no party.
pub fn outcome_of_grant(head: Head, words: u32, done: u64) -> Outcome
    ensures { result ≡ grant_outcome head words (effect_in done) }
{
    let effect = (done % 4294967296) as u32;
    let number = effect / 65536;
    if number != 0 {
        return refused_with(head, number);
    }
    let new = Row {
        ticket: head.next,
        address: effect % 65536,
        words,
        party: 0,
    };
    Outcome {
        head: Head {
            next: call_parts::next_after(head.next),
        },
        answer: call_parts::succeeded(new),
    }
}

// ---- release

// Gives back the words of the named record, which stands in the slot, and empties the slot.
fn give_back(
    head: Head,
    s: u32,
    arena: &mut [i32],
    table: &mut [u32],
    index: &mut [u32],
    named: Row,
    slot: usize,
)
    requires { (sound segment_engine (segment_pool s head arena.old table.old index.old)
        ≡ true) × (named_in table.old named ≡ Ok slot) }
    ensures { handed s (release_outcome head named 0) arena.new table.new index.new []
        ≡ acted segment_engine (give named)
        (segment_pool s head arena.old table.old index.old) }
{
    segment_check::ranged(arena);
    let at = record_table::first_unit(segment_check::WORDS, named);
    let n = record_table::span_of(segment_check::WORDS, named.words);
    let segments = segment_index::segments_of(s, arena.len());
    segment_cores::release(arena, index, segments, at, n);
    record_table::write_row(table, slot, call_parts::EMPTY_ROW);
}

// A release on a sound pool.
pub fn vacate(
    head: Head,
    s: u32,
    arena: &mut [i32],
    table: &mut [u32],
    index: &mut [u32],
    named: Row,
) -> Result<(), Refusal>
    requires { sound segment_engine (segment_pool s head arena.old table.old index.old) ≡ true }
    ensures { handed s (release_outcome head named (number_in result)) arena.new table.new index.new []
        ≡ acted segment_engine (give named)
        (segment_pool s head arena.old table.old index.old) }
{
    match call_parts::named_slot(table, named) {
        Ok(slot) => {
            give_back(head, s, arena, table, index, named, slot);
            Ok(())
        }
        Err(refusal) => Err(refusal),
    }
}

// The number of a release or a trim, 0 where it is not refused.
pub fn number_in(done: Result<(), Refusal>) -> u32
    ensures { result ≡ number_in done }
{
    match done {
        Ok(()) => 0,
        Err(refusal) => refusal.number(),
    }
}

// The outcome of a release with this number.
pub fn outcome_of_release(head: Head, named: Row, number: u32) -> Outcome
    ensures { result ≡ release_outcome head named number }
{
    if number != 0 {
        return refused_with(head, number);
    }
    Outcome {
        head: Head { next: head.next },
        answer: call_parts::succeeded(named),
    }
}

// ---- trim

// Gives back the words of the named record, which stands in the slot, behind those to keep, and shortens the record.
// Keeping everything writes nothing.
fn cut_back(
    head: Head,
    s: u32,
    arena: &mut [i32],
    table: &mut [u32],
    index: &mut [u32],
    named: Row,
    slot: usize,
    keep: u32,
)
    requires { (sound segment_engine (segment_pool s head arena.old table.old index.old)
        ≡ true) × (named_in table.old named ≡ Ok slot) × (keepable keep named ≡ true) }
    ensures { handed s (release_outcome head (shortened keep named) 0) arena.new table.new
        index.new []
        ≡ acted segment_engine (cut named keep)
        (segment_pool s head arena.old table.old index.old) }
{
    if keep == named.words {
        return;
    }
    segment_check::ranged(arena);
    let at = record_table::first_unit(segment_check::WORDS, named);
    let m = record_table::span_of(segment_check::WORDS, keep);
    let k = record_table::span_of(segment_check::WORDS, named.words) - m;
    let segments = segment_index::segments_of(s, arena.len());
    segment_cores::trim(arena, index, segments, at, m, k);
    record_table::write_row(table, slot, call_parts::shortened(named, keep));
}

// A trim on a sound pool. Its outcome is that of a release of the shortened record.
pub fn trim(
    head: Head,
    s: u32,
    arena: &mut [i32],
    table: &mut [u32],
    index: &mut [u32],
    named: Row,
    keep: u32,
) -> Result<(), Refusal>
    requires { sound segment_engine (segment_pool s head arena.old table.old index.old) ≡ true }
    ensures { handed s (release_outcome head (shortened keep named) (number_in result)) arena.new table.new
        index.new []
        ≡ acted segment_engine (cut named keep)
        (segment_pool s head arena.old table.old index.old) }
{
    let at = match call_parts::named_slot(table, named) {
        Ok(at) => at,
        Err(refusal) => return Err(refusal),
    };
    if !call_parts::can_keep(named, keep) {
        return Err(Refusal::BadSize);
    }
    cut_back(head, s, arena, table, index, named, at, keep);
    Ok(())
}

// ---- list

// One request of a party on a sound pool.
fn serve(
    head: Head,
    s: u32,
    arena: &mut [i32],
    table: &mut [u32],
    index: &mut [u32],
    request: Option<Request>,
) -> Outcome
    requires { (sound segment_engine (segment_pool s head arena.old table.old index.old) ≡ true) × (partied (act_of request) ≡ true) }
    ensures { handed s result arena.new table.new index.new []
        ≡ acted segment_engine (act_of request)
        (segment_pool s head arena.old table.old index.old) }
{
    match request {
        Some(Request::Ask { party, words }) => {
            let done = grant(head, s, arena, table, index, party, words);
            outcome_of_grant(head, words, done)
        }
        Some(Request::Give(named)) => {
            let done = vacate(head, s, arena, table, index, named);
            outcome_of_release(head, named, number_in(done))
        }
        None => refused_with(head, Refusal::BadRequest.number()),
    }
}

// Request i, with its answer written: the head after it.
fn serve_at(
    head: Head,
    s: u32,
    arena: &mut [i32],
    table: &mut [u32],
    index: &mut [u32],
    party: u32,
    asked: &[u32],
    answers: &mut [u32],
    i: usize,
) -> Head
    requires index_value { (sound segment_engine (segment_pool s head arena.old table.old index.old) ≡ true) × (is_party party ≡ true) }
    requires i_in_bounds { (4 * i + 3 < length asked.now) × (4 * i + 3 < length answers.old) }
    ensures index_after { segment_pool s result arena.new table.new index.new
        ≡ pool_after segment_engine
        (segment_pool s head arena.old table.old index.old)
        (request_at party asked.now i) }
    ensures answers_after { answers.new
        ≡ with_answer answers.old i (answer_to segment_engine
        (segment_pool s head arena.old table.old index.old)
        (request_at party asked.now i)) }
{
    let request = call_parts::request_at(asked, party, i);
    let done = serve(head, s, arena, table, index, request);
    call_parts::put_answer(answers, i, done.answer);
    done.head
}

// All requests of a party's list on a sound pool, one after another: the head after them.
pub fn serve_all(
    head: Head,
    s: u32,
    arena: &mut [i32],
    table: &mut [u32],
    index: &mut [u32],
    party: u32,
    asked: &[u32],
    answers: &mut [u32],
) -> Head
    requires index_value { (sound segment_engine (segment_pool s head arena.old table.old index.old) ≡ true) × (is_party party ≡ true) }
    requires asked_len { (length asked.now % 4 ≡ 0) × (length asked.now ≤ length answers.old) }
    ensures { (segment_pool s result arena.new table.new index.new, answers.new)
        ≡ ran segment_engine party asked.now answers.old
        (segment_pool s head arena.old table.old index.old) }
{
    let mut after = head;
    for i in 0..asked.len() / 4 {
        after = serve_at(after, s, arena, table, index, party, asked, answers, i);
    }
    after
}
