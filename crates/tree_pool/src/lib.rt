// The tree pool: Stephenson's engine with the six calls of document 01, and a trim. No call asks anything of its
// caller: each checks the pool first, and its promise equates all that it hands back and leaves with the machine's step.
#![tactic(auto)]

ghost use Rattle.std.specs.Prelude.{◌≡◌, [], ◌∷◌};
ghost use Rattle.calls.specs.Refusals.{number_in};
ghost use Rattle.calls.specs.Step.{format, allocate, release, find, look, trim, list, pool_number, step};
ghost use Rattle.calls.specs.Engines.{tree_engine};
ghost use Rattle.call_parts.specs.Parts.{with_party};
ghost use Rattle.call_parts.specs.Results.{result_of, whole_slice, slice_of};
ghost use Rattle.tree_check.specs.Gate.{tree_pool, no_head};
ghost use Rattle.tree_requests.specs.Outcomes.{handed, formatted};

use calls::{Answer, Refusal};
use ledger::Row;
use tree_check::Head;
use tree_nodes::forms::{cell_count, is_form};
use tree_requests::Outcome;

// ---- the gate

// What stops a call of this party: the pool's own refusal, then 12.
fn gate_for(head: Head, arena: &[u32], table: &[u32], party: u32) -> Result<(), Refusal>
    ensures { number_in result
        ≡ with_party (pool_number tree_engine (tree_pool head arena.now table.now)) party }
{
    let own = tree_check::gate(head, &*arena, &*table);
    call_parts::with_party(own, party)
}

// ---- find and look

// Is this ticket, address and words live, and this party's?
pub fn find(head: Head, arena: &[u32], table: &[u32], named: Row) -> Answer
    ensures { result
        ≡ (step tree_engine (find named) (tree_pool head arena.now table.now)).answer }
{
    if let Err(why) = gate_for(head, &*arena, &*table, named.party) {
        let number = why.number();
        return call_parts::refused(number);
    }
    match call_parts::named_slot(table, named) {
        Ok(_) => call_parts::succeeded(named),
        Err(why) => why.into(),
    }
}

// The part of the arena that the named record's words lie in; or the placeholder, whole, where find would refuse.
pub fn look<'a>(
    head: Head,
    arena: &'a [u32],
    table: &[u32],
    placeholder: &'a [u32],
    named: Row,
) -> &'a [u32]
    ensures { whole_slice result
        ≡ slice_of (step tree_engine (look named placeholder.now) (tree_pool head
        arena.now table.now)).shown arena.entry placeholder.entry }
{
    let answer = find(head, arena, table, named);
    if answer.number != 0 {
        return placeholder;
    }
    let from = named.address as usize;
    let to = from + named.words as usize;
    &arena[from..to]
}

// ---- format

// What a refused format hands back.
const NO_HEAD: Head = Head {
    root: 0,
    next: 0,
    form: 0,
};

// A pool of the form with no record: one free block, and the first ticket as the next. It takes no head and any
// contents; refused, it writes nothing and hands back a head of zeros.
pub fn format(form: u32, arena: &mut [u32], table: &mut [u32], first: u32) -> Outcome
    ensures { formatted form result arena.new table.new
        ≡ result_of (step tree_engine (format first) (tree_pool (no_head form) arena.old table.old)) }
{
    let right = tree_check::right_lengths(form, arena, table);
    if let Err(why) = call_parts::format_test(is_form(form), right, first) {
        return call_parts::refused_with(NO_HEAD, why.number());
    }
    let cells = cell_count(form, arena.len()) as u32;
    words::fill(arena, 0);
    words::fill(table, 0);
    tree_nodes::put_node(form, arena, 0, cells, 0, 0);
    Outcome {
        head: Head {
            root: 1,
            next: first,
            form,
        },
        answer: call_parts::succeeded(call_parts::EMPTY_ROW),
    }
}

// ---- allocate, release and trim

// Words for a party under the next ticket, at the lowest address where enough free cells lie together.
pub fn allocate(head: Head, arena: &mut [u32], table: &mut [u32], party: u32, words: u32) -> Outcome
    ensures { handed result arena.new table.new []
        ≡ result_of (step tree_engine (allocate party words) (tree_pool head arena.old table.old)) }
{
    if let Err(why) = gate_for(head, &*arena, &*table, party) {
        return call_parts::refused_with(head, why.number());
    }
    let done = tree_requests::grant(head, arena, table, party, words);
    tree_requests::outcome_of_grant(head, words, done)
}

// Frees exactly the block whose live ticket, address and words are named by its own party; free blocks that it touches
// become one with it.
pub fn release(head: Head, arena: &mut [u32], table: &mut [u32], named: Row) -> Outcome
    ensures { handed result arena.new table.new []
        ≡ result_of (step tree_engine (release named) (tree_pool head arena.old table.old)) }
{
    if let Err(why) = gate_for(head, &*arena, &*table, named.party) {
        return call_parts::refused_with(head, why.number());
    }
    let done = tree_requests::vacate(head, arena, table, named);
    tree_requests::outcome_of_release(head, named, done)
}

// Keeps the first words of the block that is named as for a release, and frees the units beyond their rounding; free
// blocks that these touch become one with them. The answer gives the words kept.
pub fn trim(head: Head, arena: &mut [u32], table: &mut [u32], named: Row, keep: u32) -> Outcome
    ensures { handed result arena.new table.new []
        ≡ result_of (step tree_engine (trim named keep) (tree_pool head arena.old table.old)) }
{
    if let Err(why) = gate_for(head, &*arena, &*table, named.party) {
        return call_parts::refused_with(head, why.number());
    }
    let done = tree_requests::trim(head, arena, table, named, keep);
    let kept = call_parts::shortened(named, keep);
    tree_requests::outcome_of_release(head, kept, done)
}

// ---- list

// The requests of a party's list, one after another on a pool that is checked once. A refused request gets its answer
// and the rest go on; answer words beyond the list stay.
pub fn list(
    head: Head,
    arena: &mut [u32],
    table: &mut [u32],
    party: u32,
    asked: &[u32],
    answers: &mut [u32],
) -> Outcome
    ensures { handed result arena.new table.new (answers.new ∷ [])
        ≡ result_of (step tree_engine (list party asked.now answers.old) (tree_pool head
        arena.old table.old)) }
{
    if !is_form(head.form) {
        return call_parts::refused_with(head, Refusal::UnknownForm.number());
    }
    if !call_parts::list_suits(asked, answers) {
        return call_parts::refused_with(head, Refusal::BadLengths.number());
    }
    if let Err(why) = gate_for(head, &*arena, &*table, party) {
        return call_parts::refused_with(head, why.number());
    }
    let after = tree_requests::serve_all(head, arena, table, party, asked, answers);
    Outcome {
        head: after,
        answer: call_parts::succeeded(call_parts::EMPTY_ROW),
    }
}
