// The calls of both pools and of the text program for C, as include/lingfurrow.h declares them. Each makes one call of
// its pool, and its promise is the pool's: an equation with the machine's step on all inputs.
#![tactic(auto)]

ghost use Rattle.std.specs.Prelude.{◌≡◌, [], ◌∷◌};
ghost use Rattle.ledger.specs.Records.{row};
ghost use Rattle.calls.specs.Step.{format, allocate, release, find, trim, list, step};
ghost use Rattle.calls.specs.Engines.{tree_engine, segment_engine};
ghost use Rattle.call_parts.specs.Results.{result_of};
ghost use Rattle.old_tables.specs.Copies.{copy_of};
ghost use Rattle.tree_check.specs.Gate.{tree_pool, no_head};
ghost use Rattle.segment_check.specs.Gate.{segment_pool};
ghost use Rattle.tree_requests.specs.Outcomes as tree;
ghost use Rattle.segment_requests.specs.Outcomes as segment;
ghost use Rattle.session.specs.Calls.{start_call, burst_call, end_call};
ghost use Rattle.pool_bursts.specs.Calls.{replied, started};
ghost use Rattle.pool_c.specs.Structs.{head_of, segment_head, answer_of, tree_outcome, segment_outcome, segment_allocation};
ghost use Rattle.pool_c.specs.Structs.{counts_of};

use ledger::Row;
use pool_bursts::Counts;

// lf_tree_head. Root and next ticket are written at once, since a caller in C copies them so.
#[repr(C)]
#[derive(Clone, Copy)]
pub struct TreeHead {
    pub first: First,
    pub form: u32,
}

#[repr(C)]
#[derive(Clone, Copy)]
pub struct First {
    pub root: u32,
    pub next: u32,
}

// lf_answer, in two halves: a caller in C reads eight bytes of it at a time, and finds them soonest if they were
// written so.
#[repr(C)]
#[derive(Clone, Copy)]
pub struct Answer {
    pub told: Told,
    pub block: Block,
}

#[repr(C)]
#[derive(Clone, Copy)]
pub struct Told {
    pub number: u32,
    pub ticket: u32,
}

#[repr(C)]
#[derive(Clone, Copy)]
pub struct Block {
    pub address: u32,
    pub words: u32,
}

// lf_tree_outcome
#[repr(C)]
#[derive(Clone, Copy)]
pub struct TreeOutcome {
    pub head: TreeHead,
    pub answer: Answer,
}

// lf_segment_outcome
#[repr(C)]
#[derive(Clone, Copy)]
pub struct SegmentOutcome {
    pub next: u32,
    pub answer: Answer,
}

// lf_segment_allocation
#[repr(C)]
#[derive(Clone, Copy)]
pub struct SegmentAllocation {
    pub next: u32,
    pub answer: Answer,
    pub places: u32,
}

// lf_burst
#[repr(C)]
#[derive(Clone, Copy)]
pub struct Burst {
    pub number: u32,
    pub taken: usize,
    pub written: usize,
}

// ---- from the pools' structs to those of C

// Both halves are passed, which is what makes the compiler write each at once.
fn both(told: Told, block: Block) -> Answer
    ensures { (result.told ≡ told) × (result.block ≡ block) }
{
    Answer { told, block }
}

impl From<calls::Answer> for Answer {
    ghost from_gives = { λ answer r. answer_of r ≡ answer };

    fn from(answer: calls::Answer) -> Answer {
        let told = Told {
            number: answer.number,
            ticket: answer.ticket,
        };
        let block = Block {
            address: answer.address,
            words: answer.words,
        };
        both(told, block)
    }
}

// So for the head.
fn with_form(first: First, form: u32) -> TreeHead
    ensures { (result.first ≡ first) × (result.form ≡ form) }
{
    TreeHead { first, form }
}

impl From<tree_requests::Outcome> for TreeOutcome {
    ghost from_gives = { λ done r. tree_outcome r ≡ done };

    fn from(done: tree_requests::Outcome) -> TreeOutcome {
        let after = done.head;
        let first = First {
            root: after.root,
            next: after.next,
        };
        TreeOutcome {
            head: with_form(first, after.form),
            answer: Answer::from(done.answer),
        }
    }
}

impl From<segment_requests::Outcome> for SegmentOutcome {
    ghost from_gives = { λ done r. segment_outcome r ≡ done };

    fn from(done: segment_requests::Outcome) -> SegmentOutcome {
        SegmentOutcome {
            next: done.head.next,
            answer: Answer::from(done.answer),
        }
    }
}

impl From<segment_requests::Allocation> for SegmentAllocation {
    ghost from_gives = { λ done r. segment_allocation r ≡ done };

    fn from(done: segment_requests::Allocation) -> SegmentAllocation {
        SegmentAllocation {
            next: done.head.next,
            answer: Answer::from(done.answer),
            places: done.places,
        }
    }
}

// ---- and back

impl From<TreeHead> for tree_check::Head {
    ghost from_gives = { λ head r. r ≡ head_of head };

    fn from(head: TreeHead) -> tree_check::Head {
        tree_check::Head {
            root: head.first.root,
            next: head.first.next,
            form: head.form,
        }
    }
}

// ---- the tree pool

#[unsafe(no_mangle)]
pub extern "C" fn lf_tree_format(
    form: u32,
    arena: &mut [u32],
    table: &mut [u32],
    first: u32,
) -> TreeOutcome
    ensures { tree.formatted form (tree_outcome result) arena.new table.new
        ≡ result_of (step tree_engine (format first) (tree_pool (no_head form) arena.old table.old)) }
{
    let done = tree_pool::format(form, arena, table, first);
    TreeOutcome::from(done)
}

#[unsafe(no_mangle)]
pub extern "C" fn lf_tree_allocate(
    head: TreeHead,
    arena: &mut [u32],
    table: &mut [u32],
    party: u32,
    words: u32,
) -> TreeOutcome
    ensures { tree.handed (tree_outcome result) arena.new table.new []
        ≡ result_of (step tree_engine (allocate party words)
        (tree_pool (head_of head) arena.old table.old)) }
{
    let pool = tree_check::Head::from(head);
    let done = tree_pool::allocate(pool, arena, table, party, words);
    TreeOutcome::from(done)
}

#[unsafe(no_mangle)]
pub extern "C" fn lf_tree_release(
    head: TreeHead,
    arena: &mut [u32],
    table: &mut [u32],
    party: u32,
    ticket: u32,
    address: u32,
    words: u32,
) -> TreeOutcome
    ensures { tree.handed (tree_outcome result) arena.new table.new []
        ≡ result_of (step tree_engine (release (row ticket address words party))
        (tree_pool (head_of head) arena.old table.old)) }
{
    let pool = tree_check::Head::from(head);
    let named = Row {
        ticket,
        address,
        words,
        party,
    };
    let done = tree_pool::release(pool, arena, table, named);
    TreeOutcome::from(done)
}

#[unsafe(no_mangle)]
pub extern "C" fn lf_tree_trim(
    head: TreeHead,
    arena: &mut [u32],
    table: &mut [u32],
    party: u32,
    ticket: u32,
    address: u32,
    words: u32,
    keep: u32,
) -> TreeOutcome
    ensures { tree.handed (tree_outcome result) arena.new table.new []
        ≡ result_of (step tree_engine (trim (row ticket address words party) keep)
        (tree_pool (head_of head) arena.old table.old)) }
{
    let pool = tree_check::Head::from(head);
    let named = Row {
        ticket,
        address,
        words,
        party,
    };
    let done = tree_pool::trim(pool, arena, table, named, keep);
    TreeOutcome::from(done)
}

#[unsafe(no_mangle)]
pub extern "C" fn lf_tree_find(
    head: TreeHead,
    arena: &[u32],
    table: &[u32],
    party: u32,
    ticket: u32,
    address: u32,
    words: u32,
) -> Answer
    ensures { answer_of result
        ≡ (step tree_engine (find (row ticket address words party))
        (tree_pool (head_of head) arena.now table.now)).answer }
{
    let pool = tree_check::Head::from(head);
    let named = Row {
        ticket,
        address,
        words,
        party,
    };
    let answer = tree_pool::find(pool, arena, table, named);
    Answer::from(answer)
}

#[unsafe(no_mangle)]
pub extern "C" fn lf_tree_list(
    head: TreeHead,
    arena: &mut [u32],
    table: &mut [u32],
    party: u32,
    requests: &[u32],
    answers: &mut [u32],
) -> TreeOutcome
    ensures { tree.handed (tree_outcome result) arena.new table.new (answers.new ∷ [])
        ≡ result_of (step tree_engine (list party requests.now answers.old)
        (tree_pool (head_of head) arena.old table.old)) }
{
    let pool = tree_check::Head::from(head);
    let done = tree_pool::list(pool, arena, table, party, requests, answers);
    TreeOutcome::from(done)
}

// ---- the segment pool; its head is the next ticket alone

#[unsafe(no_mangle)]
pub extern "C" fn lf_segment_format(
    arena: &mut [i32],
    table: &mut [u32],
    segments: u32,
    index: &mut [u32],
    first: u32,
) -> SegmentOutcome
    ensures { segment.handed segments (segment_outcome result) arena.new table.new index.new []
        ≡ result_of (step segment_engine (format first)
        (segment_pool segments (segment_head 0) arena.old table.old index.old)) }
{
    let done = segment_pool::format(segments, arena, table, index, first);
    SegmentOutcome::from(done)
}

#[unsafe(no_mangle)]
pub extern "C" fn lf_segment_allocate(
    next: u32,
    arena: &mut [i32],
    table: &mut [u32],
    segments: u32,
    index: &mut [u32],
    party: u32,
    words: u32,
) -> SegmentAllocation
    ensures { (
      segment.handed segments (segment.outcome_of (segment_allocation result)) arena.new table.new
          index.new [],
      result.places,
    )
        ≡ segment.allocated
        (segment_pool segments (segment_head next) arena.old table.old index.old)
        party words }
{
    let head = segment_check::Head { next };
    let done = segment_pool::allocate(head, segments, arena, table, index, party, words);
    SegmentAllocation::from(done)
}

#[unsafe(no_mangle)]
pub extern "C" fn lf_segment_release(
    next: u32,
    arena: &mut [i32],
    table: &mut [u32],
    segments: u32,
    index: &mut [u32],
    party: u32,
    ticket: u32,
    address: u32,
    words: u32,
) -> SegmentOutcome
    ensures { segment.handed segments (segment_outcome result) arena.new table.new index.new []
        ≡ result_of (step segment_engine (release (row ticket address words party))
        (segment_pool segments (segment_head next) arena.old table.old index.old)) }
{
    let head = segment_check::Head { next };
    let named = Row {
        ticket,
        address,
        words,
        party,
    };
    let done = segment_pool::release(head, segments, arena, table, index, named);
    SegmentOutcome::from(done)
}

#[unsafe(no_mangle)]
pub extern "C" fn lf_segment_trim(
    next: u32,
    arena: &mut [i32],
    table: &mut [u32],
    segments: u32,
    index: &mut [u32],
    party: u32,
    ticket: u32,
    address: u32,
    words: u32,
    keep: u32,
) -> SegmentOutcome
    ensures { segment.handed segments (segment_outcome result) arena.new table.new index.new []
        ≡ result_of (step segment_engine (trim (row ticket address words party) keep)
        (segment_pool segments (segment_head next) arena.old table.old index.old)) }
{
    let head = segment_check::Head { next };
    let named = Row {
        ticket,
        address,
        words,
        party,
    };
    let done = segment_pool::trim(head, segments, arena, table, index, named, keep);
    SegmentOutcome::from(done)
}

#[unsafe(no_mangle)]
pub extern "C" fn lf_segment_find(
    next: u32,
    arena: &[i32],
    table: &[u32],
    segments: u32,
    index: &[u32],
    party: u32,
    ticket: u32,
    address: u32,
    words: u32,
) -> Answer
    ensures { answer_of result
        ≡ (step segment_engine (find (row ticket address words party))
        (segment_pool segments (segment_head next) arena.now table.now index.now)).answer }
{
    let head = segment_check::Head { next };
    let named = Row {
        ticket,
        address,
        words,
        party,
    };
    let answer = segment_pool::find(head, segments, arena, table, index, named);
    Answer::from(answer)
}

#[unsafe(no_mangle)]
pub extern "C" fn lf_segment_list(
    next: u32,
    arena: &mut [i32],
    table: &mut [u32],
    segments: u32,
    index: &mut [u32],
    party: u32,
    requests: &[u32],
    answers: &mut [u32],
) -> SegmentOutcome
    ensures { segment.handed segments (segment_outcome result) arena.new table.new index.new
        (answers.new ∷ [])
        ≡ result_of (step segment_engine (list party requests.now answers.old)
        (segment_pool segments (segment_head next) arena.old table.old index.old)) }
{
    let head = segment_check::Head { next };
    let done = segment_pool::list(
        head, segments, arena, table, index, party, requests, answers,
    );
    SegmentOutcome::from(done)
}

// ---- tables from before parties, of either pool

#[unsafe(no_mangle)]
pub extern "C" fn lf_copy_table(old: &[u32], table: &mut [u32]) -> u32
    ensures { (result, table.new) ≡ copy_of old.now table.old }
{
    let copied = old_tables::copy_table(old, table);
    match copied {
        Ok(()) => 0,
        Err(why) => why.number(),
    }
}

// ---- the text program in bursts

impl From<Counts> for Burst {
    ghost from_gives = { λ c r. counts_of r ≡ c };

    fn from(c: Counts) -> Burst {
        Burst {
            number: c.number,
            taken: c.taken,
            written: c.written,
        }
    }
}

#[unsafe(no_mangle)]
pub extern "C" fn lf_session_start(state: &mut [u8]) -> u32
    ensures { started result state.new ≡ start_call state.old }
{
    pool_bursts::start(state)
}

#[unsafe(no_mangle)]
pub extern "C" fn lf_session_burst(state: &mut [u8], bytes: &[u8], answers: &mut [u8]) -> Burst
    ensures { replied (counts_of result) state.new answers.new
        ≡ burst_call state.old bytes.now answers.old }
{
    let done = pool_bursts::burst(state, bytes, answers);
    Burst::from(done)
}

#[unsafe(no_mangle)]
pub extern "C" fn lf_session_end(state: &mut [u8], answers: &mut [u8]) -> Burst
    ensures { replied (counts_of result) state.new answers.new
        ≡ end_call state.old answers.old }
{
    let done = pool_bursts::end(state, answers);
    Burst::from(done)
}
