// The segment pool: Brent's engine with the six calls of document 01, and a trim. The number of segments, s, is an argument of
// every call; every call but format gives its party, in the row that it names or after the buffers. No call asks anything
// of its caller: each checks the pool first, and its promise equates all that it hands back and leaves with the
// machine's step.
// Slices are lent on as `&*slice`, which keeps pointer and length in registers (docs/DECISIONS.md, what crosses calls).
#![tactic(auto)]

ghost use Rattle.std.specs.Prelude.{◌≡◌, [], ◌∷◌};
ghost use Rattle.calls.specs.Step.{format, release, find, look, trim, list, pool_number, step};
ghost use Rattle.calls.specs.Engines.{segment_engine};
ghost use Rattle.calls.specs.Refusals.{number_in};
ghost use Rattle.call_parts.specs.Parts.{with_party};
ghost use Rattle.call_parts.specs.Results.{result_of, whole_slice, slice_of};
ghost use Rattle.segment_check.specs.Gate.{as_words, segment_pool, no_head};
ghost use Rattle.segment_requests.specs.Outcomes.{handed, outcome_of, allocated};

use calls::{Answer, Refusal};
use ledger::Row;
use segment_check::Head;
use segment_requests::{Allocation, Outcome};

// ---- the gate

// The tests before a call of this party: the pool's own, then 12.
fn gate_for(
    s: u32,
    head: Head,
    arena: &[i32],
    table: &[u32],
    index: &[u32],
    party: u32,
) -> Result<(), Refusal>
    ensures { number_in result
        ≡ with_party
        (pool_number segment_engine (segment_pool s head arena.now table.now index.now)) party }
{
    let own = segment_check::gate(s, head, &*arena, &*table, &*index);
    call_parts::with_party(own, party)
}

// ---- find and look

// Is this ticket, address and words live, and the party's own?
pub fn find(head: Head, s: u32, arena: &[i32], table: &[u32], index: &[u32], named: Row) -> Answer
    ensures { result
        ≡ (step segment_engine (find named)
        (segment_pool s head arena.now table.now index.now)).answer }
{
    if let Err(refusal) = gate_for(s, head, &*arena, &*table, &*index, named.party) {
        let number = refusal.number();
        return call_parts::refused(number);
    }
    match call_parts::named_slot(table, named) {
        Ok(_) => call_parts::succeeded(named),
        Err(refusal) => Answer::from(refusal),
    }
}

// The part of the arena that the named record's words lie in; or the placeholder, whole, where find would refuse.
pub fn look<'a>(
    head: Head,
    s: u32,
    arena: &'a [i32],
    table: &[u32],
    index: &[u32],
    placeholder: &'a [i32],
    named: Row,
) -> &'a [i32]
    ensures { whole_slice result
        ≡ slice_of (step segment_engine (look named (as_words placeholder.now))
        (segment_pool s head arena.now table.now index.now)).shown
        arena.entry placeholder.entry }
{
    let answer = find(head, s, arena, table, index, named);
    let number = answer.number;
    if number != 0 {
        return placeholder;
    }
    let from = named.address as usize;
    let to = from + named.words as usize;
    &arena[from..to]
}

// ---- format

// A pool with no record: one free block, and the first ticket as the next. It takes no head and any contents; refused,
// it writes nothing and hands back a head of zeros.
pub fn format(
    s: u32,
    arena: &mut [i32],
    table: &mut [u32],
    index: &mut [u32],
    first: u32,
) -> Outcome
    ensures { handed s result arena.new table.new index.new []
        ≡ result_of (step segment_engine (format first)
        (segment_pool s no_head arena.old table.old index.old)) }
{
    let right = segment_check::right_lengths(s, &*arena, &*table, &*index);
    if let Err(refusal) = call_parts::format_test(true, right, first) {
        return Outcome {
            head: Head { next: 0 },
            answer: Answer::from(refusal),
        };
    }
    let segments = segment_index::segments_of(s, arena.len());
    segment_cores::lay_out(arena, index, segments);
    words::fill(table, 0);
    Outcome {
        head: Head { next: first },
        answer: call_parts::succeeded(call_parts::EMPTY_ROW),
    }
}

// ---- allocate, release and trim

fn with_places(done: Outcome, places: u32) -> Allocation
    ensures { (outcome_of result ≡ done) × (result.places ≡ places) }
{
    Allocation {
        head: done.head,
        answer: done.answer,
        places,
    }
}

// Words for a party under the next ticket, at the lowest address where enough free words lie together, and the places
// that the search looked at. What is refused before it has looked at none.
pub fn allocate(
    head: Head,
    s: u32,
    arena: &mut [i32],
    table: &mut [u32],
    index: &mut [u32],
    party: u32,
    words: u32,
) -> Allocation
    ensures { (handed s (outcome_of result) arena.new table.new index.new [], result.places)
        ≡ allocated (segment_pool s head arena.old table.old index.old)
        party words }
{
    if let Err(refusal) = gate_for(s, head, &*arena, &*table, &*index, party) {
        let refused = call_parts::refused_with(head, refusal.number());
        return with_places(refused, 0);
    }
    let done = segment_requests::grant(head, s, arena, table, index, party, words);
    let outcome = segment_requests::outcome_of_grant(head, words, done);
    with_places(outcome, (done / 4294967296) as u32)
}

// Frees exactly the block whose live ticket, address and words its own party names; free blocks that it touches become
// one with it.
pub fn release(
    head: Head,
    s: u32,
    arena: &mut [i32],
    table: &mut [u32],
    index: &mut [u32],
    named: Row,
) -> Outcome
    ensures { handed s result arena.new table.new index.new []
        ≡ result_of (step segment_engine (release named)
        (segment_pool s head arena.old table.old index.old)) }
{
    if let Err(refusal) = gate_for(s, head, &*arena, &*table, &*index, named.party) {
        return call_parts::refused_with(head, refusal.number());
    }
    let done = segment_requests::vacate(head, s, arena, table, index, named);
    segment_requests::outcome_of_release(head, named, segment_requests::number_in(done))
}

// Keeps the first words of the block that is named as for a release, and frees the units beyond their rounding; free
// blocks that these touch become one with them. The answer gives the words kept.
pub fn trim(
    head: Head,
    s: u32,
    arena: &mut [i32],
    table: &mut [u32],
    index: &mut [u32],
    named: Row,
    keep: u32,
) -> Outcome
    ensures { handed s result arena.new table.new index.new []
        ≡ result_of (step segment_engine (trim named keep)
        (segment_pool s head arena.old table.old index.old)) }
{
    if let Err(refusal) = gate_for(s, head, &*arena, &*table, &*index, named.party) {
        return call_parts::refused_with(head, refusal.number());
    }
    let done = segment_requests::trim(head, s, arena, table, index, named, keep);
    let kept = call_parts::shortened(named, keep);
    segment_requests::outcome_of_release(head, kept, segment_requests::number_in(done))
}

// ---- list

// The requests of a party's list, one after another on a pool that is checked once. A refused request gets its answer
// and the rest go on; answer words beyond the list stay.
pub fn list(
    head: Head,
    s: u32,
    arena: &mut [i32],
    table: &mut [u32],
    index: &mut [u32],
    party: u32,
    asked: &[u32],
    answers: &mut [u32],
) -> Outcome
    ensures { handed s result arena.new table.new index.new (answers.new ∷ [])
        ≡ result_of (step segment_engine (list party asked.now answers.old)
        (segment_pool s head arena.old table.old index.old)) }
{
    if !call_parts::list_suits(asked, answers) {
        return call_parts::refused_with(head, Refusal::BadLengths.number());
    }
    if let Err(refusal) = gate_for(s, head, &*arena, &*table, &*index, party) {
        return call_parts::refused_with(head, refusal.number());
    }
    let after = segment_requests::serve_all(head, s, arena, table, index, party, asked, answers);
    Outcome {
        head: after,
        answer: call_parts::succeeded(call_parts::EMPTY_ROW),
    }
}
