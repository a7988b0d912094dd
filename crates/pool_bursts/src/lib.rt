// A session of the text program in one byte buffer: its state tested, read and written, and the three calls on it.
#![tactic(auto)]

ghost use Rattle.std.specs.Prelude.{◌≡◌, true, false, cond, [], ◌∷◌, ◌+◌, ◌*◌, ◌-◌, ◌≤◌, eqb, length, take, MatchOption};
ghost use Rattle.std.proofs.lemmas.List.Edits.{sets};
ghost use Rattle.words.specs.Lists.{all, list_from};
ghost use Rattle.ledger.specs.Records.{record_words, records_of};
ghost use Rattle.calls.specs.Pool.{most_records};
ghost use Rattle.calls.specs.Refusals.{refusal_number};
ghost use Rattle.word_bytes.specs.Little.{word_at, bytes_of_words, Small};
ghost use Rattle.session.specs.Meaning.{serving, serve, most_text_words, text_form};
ghost use Rattle.session.specs.State.{session, table_from, arena_from, state_bytes, stage_of, head_of, table_in, arena_in, bytes_of};
ghost use Rattle.session.specs.State.{session_in, is_ours, right_pool, is_state};
ghost use Rattle.session.specs.Calls.{start_call, burst_done, burst_call, end_done, end_call};
ghost use Rattle.text.specs.Lines.{finish};
ghost use Rattle.text.specs.Rooms.{burst};
ghost use Rattle.pool_text.specs.Session.{own_pool, standing_of, Lent};
ghost use Rattle.pool_bursts.specs.Layout.{fields_in, is_sized, is_small, is_clear, well_formed, is_blank, field_words};
ghost use Rattle.pool_bursts.specs.Calls.{replied, number_alone, started};
ghost use Rattle.pool_bursts.specs.Inside.{Suits, stage_in, Fronts, is_placed, Read, with_pool};

use calls::Refusal;
use ledger::Row;
use pool_text::{Own, Stage};
use text::Line;
use tree_check::Head;

// A state's length in bytes, and where its line, its table and its arena begin.
const STATE: usize = 36956;

const LINE: usize = 24;

const TABLE: usize = 92;

const ARENA: usize = 4188;

// The six words at the state's start.
#[derive(Clone, Copy, PartialEq, Eq)]
struct Fields {
    stage: u32,
    kept: u32,
    words: u32,
    slots: u32,
    root: u32,
    next: u32,
}

// Those of a session without a pool, but for the stage and the bytes kept.
const NO_POOL: Fields = Fields {
    stage: 0,
    kept: 0,
    words: 0,
    slots: 0,
    root: 0,
    next: 0,
};

// Code knows of the state's bytes that they are below 256, which it tells here.
fn read_fields(state: &[u8]) -> Fields
    requires { 24 ≤ length state.now }
    ensures { (result ≡ fields_in state.now) × Small state.now }
{
    Fields {
        stage: word_bytes::get_word(state, 0),
        kept: word_bytes::get_word(state, 1),
        words: word_bytes::get_word(state, 2),
        slots: word_bytes::get_word(state, 3),
        root: word_bytes::get_word(state, 4),
        next: word_bytes::get_word(state, 5),
    }
}

fn is_sized(f: Fields) -> bool
    ensures { result ≡ is_sized f }
{
    let none = Fields {
        stage: f.stage,
        kept: f.kept,
        ..NO_POOL
    };
    let fits = match f.stage {
        1 | 3 => f == none,
        2 => (f.words <= 8192) & (f.slots <= 256),
        _ => false,
    };
    (f.kept <= 65) & fits
}

fn is_clear(f: Fields, state: &[u8]) -> bool
    requires { (is_sized f ≡ true) × (length state.now ≡ state_bytes) }
    ensures { result ≡ is_clear f state.now }
{
    let spare = LINE + f.kept as usize;
    let behind = TABLE + 16 * f.slots as usize;
    let rest = ARENA + 4 * f.words as usize;
    word_bytes::is_without(&state[LINE..spare], b'\n')
        & words::is_zero(&state[spare..TABLE])
        & words::is_zero(&state[behind..ARENA])
        & words::is_zero(&state[rest..])
}

// Whether there is a pool of at most 1,024 words and 16 records.
fn is_small(f: Fields) -> bool
    ensures { result ≡ is_small f }
{
    (f.stage == 2) & (f.words <= 1024) & (f.slots <= 16)
}

// Whether the bytes are laid out as a state's.
fn is_well_formed(state: &[u8]) -> bool
    requires { length state.now ≡ state_bytes }
    ensures { result ≡ well_formed state.now }
{
    let f = read_fields(state);
    is_sized(f) && is_clear(f, state)
}

// ---- the session in the state's bytes

// The first n words of `out` as the state has them from word `from` on.
fn get_front(state: &[u8], from: usize, out: &mut [u32], n: usize)
    requires { (n ≤ length out.old) × (4 * (from + n) ≤ length state.now) }
    ensures { take n out.new ≡ list_from (word_at state.now) from n }
{
    word_bytes::get_words(state, from, &mut out[..n]);
}

// Reads the words of a state's pool: only what is used. It is done where the buffers are a function's own, since there the
// compiler copies at once.
fn load_words(state: &[u8], arena: &mut [u32], table: &mut [u32])
    requires { (length state.now ≡ state_bytes)
        × Suits (fields_in state.now) (length arena.old) (length table.old) }
    ensures { Fronts (fields_in state.now) state.now arena.new table.new }
{
    let f = read_fields(state);
    if is_sized(f) & (f.stage == 2) {
        get_front(state, TABLE / 4, table, 4 * f.slots as usize);
        get_front(state, ARENA / 4, arena, f.words as usize);
    }
}

// Where a session of these six words stands.
fn stage_of(f: Fields) -> Stage
    ensures { result ≡ stage_in f }
{
    match f.stage {
        2 => Stage::Serving(Own {
            head: Head {
                root: f.root,
                next: f.next,
                form: 1,
            },
            words: f.words as usize,
            slots: f.slots as usize,
        }),
        3 => Stage::Stopped,
        _ => Stage::Before,
    }
}

// Whether a record is empty or party 1's.
fn is_own(r: Row) -> bool
    ensures { result ≡ is_ours r }
{
    record_table::is_empty(r) | (r.party == 1)
}

// Whether all records are: with no way out of the loop, which is most often gone through.
fn is_ours(table: &[u32]) -> bool
    ensures { result ≡ all is_ours (records_of table.now) }
{
    let mut fine = true;
    for i in 0..record_table::slot_count(table) {
        fine = fine & is_own(record_table::read_row(table, i));
    }
    fine
}

// Whether a pool in the first words of arena and table is a sound one of the text program.
fn is_fitting(own: Own, arena: &[u32], table: &[u32]) -> bool
    requires { (own.head.form ≡ text_form) × (own.words ≤ most_text_words) × (own.words ≤ length arena.now)
        × (own.slots ≤ most_records) × (record_words * own.slots ≤ length table.now) }
    ensures { result ≡ right_pool (serving (own_pool own arena.now table.now)) }
{
    let table = &table[..4 * own.slots];
    tree_check::gate(own.head, &arena[..own.words], table).is_ok() & is_ours(table)
}

// Whether a session's pool, if it has one, is a sound one of the text program.
fn is_fit(stage: Stage, arena: &[u32], table: &[u32]) -> bool
    requires { (is_placed stage (length arena.now) (length table.now) ≡ true)
        × (length arena.now ≤ most_text_words) × (length table.now ≤ most_records * record_words) }
    ensures { result ≡ right_pool (standing_of stage arena.now table.now) }
{
    match stage {
        Stage::Before => true,
        Stage::Serving(own) => is_fitting(own, arena, table),
        Stage::Stopped => true,
    }
}

// A session that was read of a buffer, but for the words of its pool.
#[derive(Drop)]
struct Loaded {
    stage: Stage,
    line: Line,
}

// Reads a buffer of a state's length, of whose pool the words were read before; there is nothing where it is no state.
fn load_state(state: &[u8], arena: &[u32], table: &[u32]) -> Option<Loaded>
    requires state_len { (length state.now ≡ state_bytes)
        × Suits (fields_in state.now) (length arena.now) (length table.now) }
    requires fronts { Fronts (fields_in state.now) state.now arena.now table.now }
    ensures { MatchOption result (is_state state.now ≡ false)
        (λ s. (is_state state.now ≡ true) × Read s.stage s.line arena.now table.now state.now) }
{
    let f = read_fields(state);
    if !is_well_formed(state) {
        return None;
    }
    let stage = stage_of(f);
    if !is_fit(stage, arena, table) {
        return None;
    }
    let spare = LINE + f.kept as usize;
    Some(Loaded {
        stage,
        line: Line::of(&state[LINE..spare]),
    })
}

// ---- the state's bytes of a session

// The six words of a session with a pool.
fn pool_fields(own: Own, kept: u32) -> Fields
    requires { (own.words ≤ most_text_words) × (own.slots ≤ most_records) }
    ensures { field_words result
        ≡ 2 ∷ kept ∷ own.words ∷ own.slots ∷ own.head.root ∷ own.head.next ∷ [] }
{
    Fields {
        stage: 2,
        kept,
        words: own.words as u32,
        slots: own.slots as u32,
        root: own.head.root,
        next: own.head.next,
    }
}

// The six words of a session.
fn fields_of(stage: Stage, kept: usize, arena: &[u32], table: &[u32]) -> Fields
    requires { Lent stage arena.now table.now × (kept ≤ 65) }
    ensures { field_words result ≡ stage_of (standing_of stage arena.now table.now) ∷ kept
        ∷ head_of (standing_of stage arena.now table.now) }
{
    let kept = kept as u32;
    match stage {
        Stage::Before => Fields {
            stage: 1,
            kept,
            ..NO_POOL
        },
        Stage::Serving(own) => pool_fields(own, kept),
        Stage::Stopped => Fields {
            stage: 3,
            kept,
            ..NO_POOL
        },
    }
}

// Puts the six words and the kept bytes.
fn put_front(f: Fields, line: &[u8], state: &mut [u8])
    requires { 24 + length line.now ≤ length state.old }
    ensures { state.new ≡ sets (sets state.old 0 (bytes_of_words (field_words f))) 24 line.now }
{
    let words = [f.stage, f.kept, f.words, f.slots, f.root, f.next];
    word_bytes::put_words(state, 0, &words);
    text::put_bytes(state, LINE, line);
}

// Puts the words of table and arena that a pool uses.
fn put_pool(own: Own, arena: &[u32], table: &[u32], state: &mut [u8])
    requires { Lent (Stage.Serving own) arena.now table.now × (length state.old ≡ state_bytes) }
    ensures { state.new
        ≡ sets (sets state.old (4 * table_from) (bytes_of_words (take (record_words * own.slots) table.now)))
        (4 * arena_from) (bytes_of_words (take own.words arena.now)) }
{
    word_bytes::put_words(state, TABLE / 4, &table[..4 * own.slots]);
    word_bytes::put_words(state, ARENA / 4, &arena[..own.words]);
}

// Puts the words of a session's pool, if it has one.
fn put_stage(stage: Stage, arena: &[u32], table: &[u32], state: &mut [u8])
    requires { Lent stage arena.now table.now × (length state.old ≡ state_bytes) }
    ensures { state.new
        ≡ with_pool state.old (standing_of stage arena.now table.now) }
{
    match stage {
        Stage::Before => {}
        Stage::Serving(own) => put_pool(own, arena, table, state),
        Stage::Stopped => {}
    }
}

// Makes room in a state for a session of these six words: zeros wherever it puts nothing. What it puts is written over.
// A pool keeps its sizes, so the old session's words lie under its own; where they did not, all would be wiped.
fn clear_for(f: Fields, state: &mut [u8])
    requires { (length state.old ≡ state_bytes) × (well_formed state.old ≡ true) }
    ensures { is_blank f state.new ≡ true }
{
    let old = read_fields(&*state);
    if (f.words < old.words) | (f.slots < old.slots) {
        words::fill(state, 0);
        return;
    }
    words::fill(&mut state[..TABLE], 0);
}

// The state's bytes of a session, over those of another, but for the words of its pool: only what is used is written.
fn store_front(stage: Stage, line: &[u8], arena: &[u32], table: &[u32], state: &mut [u8])
    requires lent { Lent stage arena.now table.now × (length state.old ≡ state_bytes) × (well_formed state.old ≡ true) }
    requires line_len { length line.now ≤ 65 }
    ensures { with_pool state.new (standing_of stage arena.now table.now)
        ≡ bytes_of (session (standing_of stage arena.now table.now) line.now) }
{
    let f = fields_of(stage, line.len(), arena, table);
    clear_for(f, state);
    put_front(f, line, state);
}

// The same with the words of its pool.
fn store(stage: Stage, line: &[u8], arena: &[u32], table: &[u32], state: &mut [u8])
    requires lent { Lent stage arena.now table.now × (length state.old ≡ state_bytes) × (well_formed state.old ≡ true) }
    requires line_len { length line.now ≤ 65 }
    ensures { state.new ≡ bytes_of (session (standing_of stage arena.now table.now) line.now) }
{
    store_front(stage, line, arena, table, state);
    put_stage(stage, arena, table, state);
}

// ---- the calls

// What a call tells: its number, how many bytes of the burst it took, and how many answer bytes it wrote.
#[derive(Clone, Copy)]
pub struct Counts {
    pub number: u32,
    pub taken: usize,
    pub written: usize,
}

// A call that changes nothing.
fn unchanged(number: u32) -> Counts
    ensures { result ≡ number_alone number }
{
    Counts {
        number,
        taken: 0,
        written: 0,
    }
}

// The same of a call that is refused.
fn refused(why: Refusal) -> Counts
    ensures { result ≡ number_alone (refusal_number why) }
{
    unchanged(why.number())
}

// Where the answers have no more room: no refusal, since what is left can be offered again.
const ANSWERS_FULL: u32 = 10;

// The number of a burst that was taken as far as a place: 0, or 10 where bytes are left.
fn number_at(from: usize, n: usize) -> u32
    requires { from ≤ n }
    ensures { result ≡ cond (eqb (n - from) 0) 0 10 }
{
    if from == n {
        return 0;
    }
    ANSWERS_FULL
}

// A burst that was served, and where the session stands: the words of its pool are still to be put into the state.
#[derive(Clone, Copy)]
struct ServedBurst {
    counts: Counts,
    stage: Stage,
}

// Serves a burst on a session that was read, and leaves its state but for the pool's words.
fn burst_loaded(
    stage: Stage,
    line: &mut Line,
    arena: &mut [u32],
    table: &mut [u32],
    bytes: &[u8],
    answers: &mut [u8],
    state: &mut [u8],
) -> ServedBurst
    requires { Lent stage arena.old table.old × (length state.old ≡ state_bytes) × (well_formed state.old ≡ true) }
    ensures lent { Lent result.stage arena.new table.new }
    ensures answers_after { replied result.counts
        (with_pool state.new (standing_of result.stage arena.new table.new)) answers.new
        ≡ burst_done (burst serve (length answers.old) (standing_of stage arena.old table.old)
        line.old bytes.now) bytes.now answers.old }
{
    let done = pool_text::serve_burst(stage, line, arena, table, bytes, answers);
    let after = done.stage;
    store_front(after, line.bytes(), &*arena, &*table, state);
    ServedBurst {
        counts: Counts {
            number: number_at(done.from, bytes.len()),
            taken: done.from,
            written: done.at,
        },
        stage: after,
    }
}

// Serves a burst on the session in a state, of whose pool the words were read. A refused one leaves nothing to be put.
fn burst_in(
    state: &mut [u8],
    bytes: &[u8],
    answers: &mut [u8],
    arena: &mut [u32],
    table: &mut [u32],
) -> ServedBurst
    requires state_len { (length state.old ≡ state_bytes)
        × Suits (fields_in state.old) (length arena.old) (length table.old) }
    requires fronts { Fronts (fields_in state.old) state.old arena.old table.old }
    ensures lent { Lent result.stage arena.new table.new }
    ensures answers_after { replied result.counts
        (with_pool state.new (standing_of result.stage arena.new table.new)) answers.new
        ≡ burst_call state.old bytes.now answers.old }
{
    let Some(read) = load_state(&*state, &*arena, &*table) else {
        return ServedBurst {
            counts: refused(Refusal::Damaged),
            stage: Stage::Stopped,
        };
    };
    let mut line = read.line;
    burst_loaded(read.stage, &mut line, arena, table, bytes, answers, state)
}

// The same in A words and a table of T words, which are zeroed for it.
fn burst_within<const A: usize, const T: usize>(
    state: &mut [u8],
    bytes: &[u8],
    answers: &mut [u8],
) -> Counts
    requires { (length state.old ≡ state_bytes) × Suits (fields_in state.old) A T }
    ensures { replied result state.new answers.new
        ≡ burst_call state.old bytes.now answers.old }
{
    let mut arena = [0u32; A];
    let mut table = [0u32; T];
    load_words(&*state, &mut arena, &mut table);
    let done = burst_in(state, bytes, answers, &mut arena, &mut table);
    put_stage(done.stage, &arena, &table, state);
    done.counts
}

// Serves a burst on the session in a state.
pub fn burst(state: &mut [u8], bytes: &[u8], answers: &mut [u8]) -> Counts
    ensures { replied result state.new answers.new
        ≡ burst_call state.old bytes.now answers.old }
{
    if state.len() != STATE {
        return refused(Refusal::BadLengths);
    }
    if is_small(read_fields(&*state)) {
        return burst_within::<1024, 64>(state, bytes, answers);
    }
    burst_within::<8192, 1024>(state, bytes, answers)
}

// Serves a last line that has no line feed, where a session was read, and leaves its state.
fn end_loaded(
    stage: Stage,
    line: &[u8],
    arena: &mut [u32],
    table: &mut [u32],
    answers: &mut [u8],
    state: &mut [u8],
) -> Counts
    requires lent { Lent stage arena.old table.old × (length state.old ≡ state_bytes) × (well_formed state.old ≡ true) }
    requires line_len { length line.now ≤ 65 }
    ensures { replied result state.new answers.new
        ≡ end_done (finish serve (standing_of stage arena.old table.old) line.now)
        state.old answers.old }
{
    if line.is_empty() {
        store(stage, line, &*arena, &*table, state);
        return unchanged(0);
    }
    let Some(done) = pool_text::try_line(stage, line, arena, table, answers, 0) else {
        return unchanged(ANSWERS_FULL);
    };
    store(done.stage, &[], &*arena, &*table, state);
    Counts {
        number: 0,
        taken: 0,
        written: done.at,
    }
}

// Serves and clears a last line that has no line feed.
pub fn end(state: &mut [u8], answers: &mut [u8]) -> Counts
    ensures { replied result state.new answers.new
        ≡ end_call state.old answers.old }
{
    if state.len() != STATE {
        return refused(Refusal::BadLengths);
    }
    let mut arena = [0u32; 8192];
    let mut table = [0u32; 1024];
    load_words(&*state, &mut arena, &mut table);
    let Some(read) = load_state(&*state, &arena, &table) else {
        return refused(Refusal::Damaged);
    };
    let line = read.line;
    end_loaded(
        read.stage,
        line.bytes(),
        &mut arena,
        &mut table,
        answers,
        state,
    )
}

// Fills a buffer with the state of a session before P.
pub fn start(state: &mut [u8]) -> u32
    ensures { started result state.new ≡ start_call state.old }
{
    if state.len() != STATE {
        return Refusal::BadLengths as u32;
    }
    let f = Fields {
        stage: 1,
        ..NO_POOL
    };
    words::fill(state, 0);
    put_front(f, &[], state);
    0
}
