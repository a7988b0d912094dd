// The tree pool's cores: what a request does on a sound pool, and the outcome that it comes to. Whoever keeps a pool of
// its own sound may use them; the calls of tree_pool check first.
#![tactic(auto)]

pub mod sizes;

ghost use Rattle.std.specs.Prelude.{◌≡◌, List, [], ◌+◌, ◌*◌, ◌/◌, ◌%◌, ◌<◌, ◌≤◌, length, true, Ok};
ghost use Rattle.calls.specs.Pool.{sound};
ghost use Rattle.ledger.specs.Runs.{Run};
ghost use Rattle.ledger.specs.Records.{is_party, keepable, shortened};
ghost use Rattle.calls.specs.Refusals.{refusal_number};
ghost use Rattle.calls.specs.Step.{ask, give, cut, answer_to, pool_after, partied};
ghost use Rattle.calls.specs.Engines.{tree_engine};
ghost use Rattle.stored_forms.specs.Tree.{form_of};
ghost use Rattle.free_blocks.specs.Blocks.{Gives, Given};
ghost use Rattle.call_parts.specs.Parts.{named_in, act_of, request_at, with_answer};
ghost use Rattle.call_parts.specs.Results.{acted, ran};
ghost use Rattle.tree_check.specs.Gate.{tree_pool};
ghost use Rattle.tree_requests.specs.Sizes.{cell_span};
ghost use Rattle.tree_requests.specs.Granting.{Grantable};
ghost use Rattle.tree_requests.specs.Outcomes.{handed, grant_outcome, release_outcome};
ghost use Rattle.tree_requests.specs.Outcomes.{effect_number, effect_root, effect_address};

use call_parts::{Request, refused_with};
use calls::{Answer, Refusal};
use ledger::Row;
use sizes::cells_of;
use tree_check::Head;
use tree_nodes::forms::cell_count;

// What a call hands back.
pub type Outcome = call_parts::Outcome<Head>;

// ---- effects

// What a request on a sound pool has come to, as far as its caller does not know it: number, root link, and the
// address of the block that was granted. They come back as one number, because a struct comes back through memory: what
// is read there at once costs a wait.

// The effect of a request that is refused: none.
fn no_effect(why: Refusal) -> u64
    ensures { effect_number result ≡ refusal_number why }
{
    why.number() as u64
}

// The effect of a request that was served.
fn effect(root: usize, address: u32) -> u64
    requires { (root < 4294967296) × (address < 268435456) }
    ensures { (effect_number result ≡ 0) × (effect_root result ≡ root) × (effect_address result ≡ address) }
{
    16 * (root as u64 + 4294967296 * address as u64)
}

// ---- allocate

// Takes the first cells of the block that was found for the party, as many as the words come to, under the next ticket.
// The block's father was found with it.
fn place(
    head: Head,
    arena: &mut [u32],
    table: &mut [u32],
    party: u32,
    words: u32,
    slot: usize,
    block: usize,
    father: usize,
    cells: usize,
) -> u64
    requires grantable { Grantable head arena.old table.old party words slot block father }
    requires cells_value { cells ≡ cell_span (form_of head.form) words }
    ensures { handed (grant_outcome head words result) arena.new table.new []
        ≡ acted tree_engine (ask party words) (tree_pool head arena.old table.old) }
{
    let form = head.form;
    let root = free_blocks::take_cells(form, arena, head.root as usize, block, father, cells);
    let address = sizes::first_word(form, block - 1) as u32;
    let new = Row {
        ticket: head.next,
        address,
        words,
        party,
    };
    record_table::write_row(table, slot, new);
    effect(root, address)
}

// A party's allocation on a sound pool: the tests in the order of their numbers, then the leftmost fit.
pub fn grant(head: Head, arena: &mut [u32], table: &mut [u32], party: u32, words: u32) -> u64
    requires { (sound tree_engine (tree_pool head arena.old table.old) ≡ true) × (is_party party ≡ true) }
    ensures { handed (grant_outcome head words result) arena.new table.new []
        ≡ acted tree_engine (ask party words) (tree_pool head arena.old table.old) }
{
    let form = head.form;
    if (words == 0) | (sizes::limit_of(form) < words) {
        return no_effect(Refusal::BadSize);
    }
    let Some(slot) = record_table::empty_slot(table) else {
        return no_effect(Refusal::NoRecord);
    };
    let next = head.next;
    if next == 0 {
        return no_effect(Refusal::NoTicket);
    }
    let cells = cells_of(form, words);
    let found = free_tree::leftmost_fit(form, arena, head.root as usize, cells as u32);
    let block = found.at;
    let father = found.over;
    if block == 0 {
        return no_effect(Refusal::NoRoom);
    }
    place(head, arena, table, party, words, slot, block, father, cells)
}

// The outcome of an allocation with this effect.
pub fn outcome_of_grant(head: Head, words: u32, done: u64) -> Outcome
    ensures { result ≡ grant_outcome head words done }
{
    let number = (done % 16) as u32;
    if number != 0 {
        return refused_with(head, number);
    }
    Outcome {
        head: Head {
            root: (done / 16 % 4294967296) as u32,
            next: call_parts::next_after(head.next),
            ..head
        },
        answer: Answer {
            number: 0,
            ticket: head.next,
            address: (done / 68719476736) as u32,
            words,
        },
    }
}

// ---- release

// Gives back the cells of the named record's block behind its first `kept`, and returns the link to the tree. The cells are
// counted here, for a release and a trim alike: what is left of those is then small enough that the compiler makes it
// part of their callers, the loop over a list among them.
fn give_tail(form: u32, arena: &mut [u32], root: usize, named: Row, kept: usize) -> usize
    requires { (rs : List Run) × Gives (form_of form) arena.old root (named.address / (form_of form).cell + kept)
        (named.address / (form_of form).cell + cell_span (form_of form) named.words) rs }
    ensures { Given (form_of form) arena.old arena.new root
        (named.address / (form_of form).cell + kept)
        (named.address / (form_of form).cell + cell_span (form_of form) named.words) result }
{
    let first = cell_count(form, named.address as usize);
    let past = first + cells_of(form, named.words);
    free_blocks::give_cells(form, arena, root, first + kept, past)
}

// Gives back the cells of the named record, which stands in the slot, and empties the slot.
fn give_back(head: Head, arena: &mut [u32], table: &mut [u32], named: Row, slot: usize) -> u64
    requires { (sound tree_engine (tree_pool head arena.old table.old)
        ≡ true) × (named_in table.old named ≡ Ok slot) }
    ensures { handed (release_outcome head named result) arena.new table.new []
        ≡ acted tree_engine (give named) (tree_pool head arena.old table.old) }
{
    let root = give_tail(head.form, arena, head.root as usize, named, 0);
    record_table::write_row(table, slot, call_parts::EMPTY_ROW);
    effect(root, 0)
}

// A release on a sound pool.
pub fn vacate(head: Head, arena: &mut [u32], table: &mut [u32], named: Row) -> u64
    requires { sound tree_engine (tree_pool head arena.old table.old) ≡ true }
    ensures { handed (release_outcome head named result) arena.new table.new []
        ≡ acted tree_engine (give named) (tree_pool head arena.old table.old) }
{
    match call_parts::named_slot(table, named) {
        Ok(slot) => give_back(head, arena, table, named, slot),
        Err(why) => no_effect(why),
    }
}

// The outcome of a release with this effect.
pub fn outcome_of_release(head: Head, named: Row, done: u64) -> Outcome
    ensures { result ≡ release_outcome head named done }
{
    let number = (done % 16) as u32;
    if number != 0 {
        return refused_with(head, number);
    }
    Outcome {
        head: Head {
            root: (done / 16 % 4294967296) as u32,
            ..head
        },
        answer: call_parts::succeeded(named),
    }
}

// ---- trim

// Shortens the named record, which stands in the slot, to the words to keep, and gives back the cells beyond their
// rounding, if there are any.
fn cut_back(
    head: Head,
    arena: &mut [u32],
    table: &mut [u32],
    named: Row,
    slot: usize,
    keep: u32,
) -> u64
    requires { (sound tree_engine (tree_pool head arena.old table.old)
        ≡ true) × (named_in table.old named ≡ Ok slot) × (keepable keep named ≡ true) }
    ensures { handed (release_outcome head (shortened keep named) result) arena.new table.new []
        ≡ acted tree_engine (cut named keep) (tree_pool head arena.old table.old) }
{
    let form = head.form;
    record_table::write_row(table, slot, call_parts::shortened(named, keep));
    let kept = cells_of(form, keep);
    if kept == cells_of(form, named.words) {
        return effect(head.root as usize, 0);
    }
    let root = give_tail(form, arena, head.root as usize, named, kept);
    effect(root, 0)
}

// A trim on a sound pool: 6 and 7, then 2. Its outcome is that of a release of the shortened record.
pub fn trim(head: Head, arena: &mut [u32], table: &mut [u32], named: Row, keep: u32) -> u64
    requires { sound tree_engine (tree_pool head arena.old table.old) ≡ true }
    ensures { handed (release_outcome head (shortened keep named) result) arena.new table.new []
        ≡ acted tree_engine (cut named keep) (tree_pool head arena.old table.old) }
{
    match call_parts::named_slot(table, named) {
        Ok(slot) => {
            if !call_parts::can_keep(named, keep) {
                return no_effect(Refusal::BadSize);
            }
            cut_back(head, arena, table, named, slot, keep)
        }
        Err(why) => no_effect(why),
    }
}

// ---- requests

// One request of a party's list on a sound pool; what is no request is refused.
fn serve(head: Head, arena: &mut [u32], table: &mut [u32], request: Option<Request>) -> Outcome
    requires { (sound tree_engine (tree_pool head arena.old table.old) ≡ true) × (partied (act_of request) ≡ true) }
    ensures { handed result arena.new table.new []
        ≡ acted tree_engine (act_of request) (tree_pool head arena.old table.old) }
{
    match request {
        Some(Request::Ask { party, words }) => {
            let done = grant(head, arena, table, party, words);
            outcome_of_grant(head, words, done)
        }
        Some(Request::Give(named)) => {
            let done = vacate(head, arena, table, named);
            outcome_of_release(head, named, done)
        }
        None => refused_with(head, Refusal::BadRequest.number()),
    }
}

// Request i of a party's list, with its answer written: the head after it.
fn serve_at(
    head: Head,
    arena: &mut [u32],
    table: &mut [u32],
    party: u32,
    asked: &[u32],
    answers: &mut [u32],
    i: usize,
) -> Head
    requires table_value { (sound tree_engine (tree_pool head arena.old table.old) ≡ true) × (is_party party ≡ true) }
    requires i_in_bounds { (4 * i + 3 < length asked.now) × (4 * i + 3 < length answers.old) }
    ensures table_after { tree_pool result arena.new table.new
        ≡ pool_after tree_engine (tree_pool head arena.old table.old)
        (request_at party asked.now i) }
    ensures answers_after { answers.new
        ≡ with_answer answers.old i (answer_to tree_engine (tree_pool head
        arena.old table.old) (request_at party asked.now i)) }
{
    let request = call_parts::request_at(asked, party, i);
    let done = serve(head, arena, table, request);
    call_parts::put_answer(answers, i, done.answer);
    done.head
}

// All requests of a party's list on a sound pool, one after another: the head after them.
pub fn serve_all(
    head: Head,
    arena: &mut [u32],
    table: &mut [u32],
    party: u32,
    asked: &[u32],
    answers: &mut [u32],
) -> Head
    requires table_value { (sound tree_engine (tree_pool head arena.old table.old) ≡ true) × (is_party party ≡ true) }
    requires asked_len { (length asked.now % 4 ≡ 0) × (length asked.now ≤ length answers.old) }
    ensures { (tree_pool result arena.new table.new, answers.new)
        ≡ ran tree_engine party asked.now answers.old (tree_pool head arena.old table.old) }
{
    let mut after = head;
    for i in 0..asked.len() / 4 {
        after = serve_at(after, arena, table, party, asked, answers, i);
    }
    after
}
