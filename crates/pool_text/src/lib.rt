// The text program's lines on a tree pool: a burst of input bytes in, answer bytes out. It runs the pool's cores, not
// its checked calls: who calls it has checked the pool, and a line keeps it sound.
#![tactic(auto)]

ghost use Rattle.std.specs.Prelude.{◌≡◌, ℕ, List, true, false, [], ◌+◌, ◌*◌, ◌≤◌, ◌<◌, length, take, drop, MatchOption};
ghost use Rattle.ledger.specs.Records.{row, record_words};
ghost use Rattle.calls.specs.Pool.{sound};
ghost use Rattle.calls.specs.Step.{format, step, ask, give, cut, answer_to};
ghost use Rattle.calls.specs.Engines.{tree_engine};
ghost use Rattle.calls.specs.Refusals.{refusal_number};
ghost use Rattle.call_parts.specs.Results.{result_of, acted};
ghost use Rattle.tree_check.specs.declared.Head.{Head};
ghost use Rattle.tree_check.specs.Gate.{tree_pool, no_head};
ghost use Rattle.tree_requests.specs.Outcomes.{handed, formatted};
ghost use Rattle.text.specs.Fields.{line_of, Wrote};
ghost use Rattle.text.specs.Rooms.{burst};
ghost use Rattle.session.specs.Meaning.{begins, act_of, request_of, opened, text_form, text_party, first_line, refusal_line, answer_line, serve};
ghost use Rattle.session.specs.Bursts.{most_answer};
ghost use Rattle.pool_text.specs.Answers.{answer_in};
ghost use Rattle.pool_text.specs.Session.{own_pool, standing_of, Lent, Came, Tries, Going, here, ahead, landed};

use calls::{Answer, Refusal};
use ledger::Row;
use session::LineRequest;
use std::marker::Model;
use text::Line;
use tree_check::Head;
use tree_requests::{Outcome, sizes};

// ---- what a line asks

// What follows the letter and the tab that a line of at most 64 bytes begins with.
fn fields_after(s: &[u8], letter: u8) -> Option<&[u8]>
    ensures { MatchOption result (begins s.now letter ≡ false)
        (λ f. (begins s.now letter ≡ true) × (f.now ≡ drop 2 s.now)) }
{
    let n = s.len();
    if n < 2 {
        return None;
    }
    let fine = (n <= 64) & (s[0] == letter) & (s[1] == b'\t');
    if fine { Some(&s[2..]) } else { None }
}

// The party of the program's records.
const PARTY: u32 = 1;

fn ours(ticket: u32, address: u32, words: u32) -> Row
    ensures { result ≡ row ticket address words text_party }
{
    Row {
        ticket,
        address,
        words,
        party: PARTY,
    }
}

// The request of a line after P.
fn request_of(s: &[u8]) -> Option<LineRequest>
    ensures { result ≡ request_of s.now }
{
    if let Some(fields) = fields_after(s, b'A') {
        let words = text::read_number(fields)?;
        return Some(LineRequest::Ask(words));
    }
    if let Some(fields) = fields_after(s, b'R') {
        let [ticket, address, words] = text::read_numbers::<3>(fields)?;
        return Some(LineRequest::Give(ours(ticket, address, words)));
    }
    if let Some(fields) = fields_after(s, b'T') {
        let [ticket, address, words, keep] = text::read_numbers::<4>(fields)?;
        return Some(LineRequest::Cut(ours(ticket, address, words), keep));
    }
    None
}

// ---- what is answered

// K, ticket, address, words, or N and the number.
fn put_answer(out: &mut [u8], at: usize, x: Answer) -> usize
    requires { at + most_answer ≤ length out.old }
    ensures { Wrote out.old out.new at result (answer_line x) }
{
    if x.number != 0 {
        return text::put_line(out, at, b'N', &[x.number]);
    }
    let numbers = [x.ticket, x.address, x.words];
    text::put_line(out, at, b'K', &numbers)
}

// An answer's line by itself, in the bytes that the longest takes. Clauses see the line.
#[derive(Drop)]
struct Said {
    bytes: [u8; 35],
    len: usize,
}

impl Model for Said {
    ghost Value = { List ℕ };

    ghost view = { λ s. take s.len s.bytes };

    ghost invariant = { λ s. s.len ≤ 35 };
}

impl Said {
    fn line(letter: u8, numbers: &[u32]) -> Said
        requires { length numbers.now ≤ 3 }
        ensures { result ≡ line_of letter numbers.now }
    {
        let mut bytes = [0; 35];
        let len = text::put_line(&mut bytes, 0, letter, numbers);
        Said { bytes, len }
    }

    fn answer(x: Answer) -> Said
        ensures { result ≡ answer_line x }
    {
        let mut bytes = [0; 35];
        let len = put_answer(&mut bytes, 0, x);
        Said { bytes, len }
    }

    fn bytes(&self) -> &[u8]
        ensures { result.now ≡ self.now }
    {
        &self.bytes[..self.len]
    }
}

// ---- a whole line

// The program's own pool, in the first words of the lent arena and table: its head and its sizes.
#[derive(Clone, Copy)]
pub struct Own {
    pub head: Head,
    pub words: usize,
    pub slots: usize,
}

// Where the program stands.
#[derive(Clone, Copy)]
pub enum Stage {
    Before,
    Serving(Own),
    Stopped,
}

// Where it stands after the first line, and what is answered.
#[derive(Drop)]
struct First {
    stage: Stage,
    said: Said,
}

// N and a number, and the end of all service.
fn stop(number: u32) -> First
    ensures { (result.stage ≡ Stage.Stopped) × (result.said ≡ refusal_line number) }
{
    First {
        stage: Stage::Stopped,
        said: Said::line(b'N', &[number]),
    }
}

// The same for a refusal of the first line itself.
fn refuse(why: Refusal) -> First
    ensures { (result.stage ≡ Stage.Stopped) × (result.said ≡ refusal_line (refusal_number why)) }
{
    stop(why.number())
}

// The form of the program's pool.
const FORM: u32 = 1;

// Formats the first n words of the arena and the first t words of the table.
fn format_front(arena: &mut [u32], n: usize, table: &mut [u32], t: usize, first: u32) -> Outcome
    requires { (n ≤ length arena.old) × (t ≤ length table.old) }
    ensures { formatted text_form result (take n arena.new) (take t table.new)
        ≡ result_of (step tree_engine (format first) (tree_pool (no_head text_form) (take n arena.old)
        (take t table.old))) }
{
    tree_pool::format(FORM, &mut arena[..n], &mut table[..t], first)
}

// A P line that names these sizes and this first ticket by these numbers, which are echoed: a pool in the first words of
// arena and table.
fn open_pool(
    arena: &mut [u32],
    table: &mut [u32],
    words: u32,
    slots: u32,
    first: u32,
    numbers: &[u32],
) -> First
    requires { Lent Stage.Before arena.old table.old × (length numbers.now ≤ 3) }
    ensures { Came result.stage arena.new table.new (opened words slots first numbers.now) result.said }
{
    if (8192 < words) | (256 < slots) {
        return refuse(Refusal::BadLengths);
    }
    let done = format_front(arena, words as usize, table, 4 * slots as usize, first);
    if done.answer.number != 0 {
        return stop(done.answer.number);
    }
    First {
        stage: Stage::Serving(Own {
            head: done.head,
            words: words as usize,
            slots: slots as usize,
        }),
        said: Said::line(b'P', numbers),
    }
}

// The first line: P with two numbers, and first ticket 1, or with three.
fn serve_first(line: &[u8], arena: &mut [u32], table: &mut [u32]) -> First
    requires { Lent Stage.Before arena.old table.old }
    ensures { Came result.stage arena.new table.new (first_line line.now) result.said }
{
    let Some(fields) = fields_after(line, b'P') else {
        return refuse(Refusal::BadRequest);
    };
    if let Some(numbers) = text::read_numbers::<2>(fields) {
        let [words, slots] = numbers;
        return open_pool(arena, table, words, slots, 1, &numbers);
    }
    if let Some(numbers) = text::read_numbers::<3>(fields) {
        let [words, slots, first] = numbers;
        return open_pool(arena, table, words, slots, first, &numbers);
    }
    refuse(Refusal::BadRequest)
}

// A request on a sound pool, or a line that is none.
fn act(head: Head, arena: &mut [u32], table: &mut [u32], request: Option<LineRequest>) -> Outcome
    requires { sound tree_engine (tree_pool head arena.old table.old) ≡ true }
    ensures { handed result arena.new table.new []
        ≡ acted tree_engine (act_of request) (tree_pool head arena.old table.old) }
{
    match request {
        Some(LineRequest::Ask(words)) => {
            let done = tree_requests::grant(head, arena, table, PARTY, words);
            tree_requests::outcome_of_grant(head, words, done)
        }
        Some(LineRequest::Give(named)) => {
            let done = tree_requests::vacate(head, arena, table, named);
            tree_requests::outcome_of_release(head, named, done)
        }
        Some(LineRequest::Cut(named, keep)) => {
            let done = tree_requests::trim(head, arena, table, named, keep);
            let kept = call_parts::shortened(named, keep);
            tree_requests::outcome_of_release(head, kept, done)
        }
        None => call_parts::refused_with(head, Refusal::BadRequest as u32),
    }
}

// A request on the program's own pool.
fn serve_own(
    own: Own,
    arena: &mut [u32],
    table: &mut [u32],
    request: Option<LineRequest>,
) -> Outcome
    requires { Lent (Stage.Serving own) arena.old table.old }
    ensures { handed result (take own.words arena.new) (take (record_words * own.slots) table.new) []
        ≡ acted tree_engine (act_of request) (own_pool own arena.old table.old) }
{
    let head = own.head;
    act(
        head,
        &mut arena[..own.words],
        &mut table[..4 * own.slots],
        request,
    )
}

// ---- what a request would be answered, with nothing changed

// The record that an allocation would enter: the tests in the order of their numbers, then the leftmost fit.
fn asked_row(head: Head, arena: &[u32], table: &[u32], words: u32) -> Result<Row, Refusal>
    requires { sound tree_engine (tree_pool head arena.now table.now) ≡ true }
    ensures { answer_in result
        ≡ answer_to tree_engine (tree_pool head arena.now table.now) (ask text_party words) }
{
    let form = head.form;
    if (words == 0) | (sizes::limit_of(form) < words) {
        return Err(Refusal::BadSize);
    }
    record_table::empty_slot(table).ok_or(Refusal::NoRecord)?;
    if head.next == 0 {
        return Err(Refusal::NoTicket);
    }
    let cells = sizes::cells_of(form, words);
    let found = free_tree::leftmost_fit(form, arena, head.root as usize, cells as u32);
    if found.at == 0 {
        return Err(Refusal::NoRoom);
    }
    let address = sizes::first_word(form, found.at - 1) as u32;
    Ok(ours(head.next, address, words))
}

// The record that a release names.
fn named_row(table: &[u32], named: Row) -> Result<Row, Refusal>
    ensures { (h : Head) (a : List ℕ) → answer_in result ≡ answer_to tree_engine (tree_pool h a table.now) (give named) }
{
    call_parts::named_slot(table, named)?;
    Ok(named)
}

// What a trim leaves of the record that it names: 2 comes after 6 and 7.
fn cut_row(table: &[u32], named: Row, keep: u32) -> Result<Row, Refusal>
    ensures { (h : Head) (a : List ℕ) → answer_in result ≡ answer_to tree_engine (tree_pool h a table.now) (cut named keep) }
{
    call_parts::named_slot(table, named)?;
    if !call_parts::can_keep(named, keep) {
        return Err(Refusal::BadSize);
    }
    Ok(call_parts::shortened(named, keep))
}

// What the request of a line comes to on a sound pool.
fn row_of(
    head: Head,
    arena: &[u32],
    table: &[u32],
    request: Option<LineRequest>,
) -> Result<Row, Refusal>
    requires { sound tree_engine (tree_pool head arena.now table.now) ≡ true }
    ensures { answer_in result
        ≡ answer_to tree_engine (tree_pool head arena.now table.now) (act_of request) }
{
    let Some(request) = request else {
        return Err(Refusal::BadRequest);
    };
    match request {
        LineRequest::Ask(words) => asked_row(head, arena, table, words),
        LineRequest::Give(named) => named_row(table, named),
        LineRequest::Cut(named, keep) => cut_row(table, named, keep),
    }
}

// ---- room

// How long the answer to a request is.
fn request_length(own: Own, arena: &[u32], table: &[u32], request: Option<LineRequest>) -> usize
    requires { Lent (Stage.Serving own) arena.now table.now }
    ensures { result
        ≡ length (answer_line (answer_to tree_engine (own_pool own arena.now table.now) (act_of request))) }
{
    let head = own.head;
    let answer = match row_of(head, &arena[..own.words], &table[..4 * own.slots], request) {
        Ok(done) => call_parts::succeeded(done),
        Err(why) => Answer::from(why),
    };
    Said::answer(answer).bytes().len()
}

// Puts an answer that has room: by itself first, where the room is too short for the longest.
fn put_fitting(out: &mut [u8], at: usize, x: Answer) -> usize
    requires { at + length (answer_line x) ≤ length out.old }
    ensures { Wrote out.old out.new at result (answer_line x) }
{
    if 35 <= out.len() - at {
        return put_answer(out, at, x);
    }
    let said = Said::answer(x);
    text::put_bytes(out, at, said.bytes())
}

// ---- a line, where its answer has room

// Where the program stands after a line, and the place after what was answered.
#[derive(Clone, Copy)]
pub struct Place {
    pub stage: Stage,
    pub at: usize,
}

// The first line. Its answer is made by itself: before P the lent words are nobody's, so if the answer has no room the
// session stays as it is.
fn try_first(
    line: &[u8],
    arena: &mut [u32],
    table: &mut [u32],
    out: &mut [u8],
    at: usize,
) -> Option<Place>
    requires { Lent Stage.Before arena.old table.old × (at ≤ length out.old) }
    ensures { Tries result Stage.Before arena.old table.old arena.new table.new
        (first_line line.now) out.old out.new at }
{
    let first = serve_first(line, arena, table);
    let said = first.said.bytes();
    if out.len() - at < said.len() {
        return None;
    }
    Some(Place {
        stage: first.stage,
        at: text::put_bytes(out, at, said),
    })
}

// A line after P. Only where the room is short for the longest answer is the line's own looked up first.
fn try_request(
    own: Own,
    line: &[u8],
    arena: &mut [u32],
    table: &mut [u32],
    out: &mut [u8],
    at: usize,
) -> Option<Place>
    requires { Lent (Stage.Serving own) arena.old table.old × (at ≤ length out.old) }
    ensures { Tries result (Stage.Serving own) arena.old table.old arena.new
        table.new (serve (standing_of (Stage.Serving own) arena.old table.old)
        line.now) out.old out.new at }
{
    let request = request_of(line);
    let room = out.len() - at;
    if room < 35 {
        if room < request_length(own, &*arena, &*table, request) {
            return None;
        }
    }
    let done = serve_own(own, arena, table, request);
    Some(Place {
        stage: Stage::Serving(Own {
            head: done.head,
            ..own
        }),
        at: put_fitting(out, at, done.answer),
    })
}

// A whole line, without its line feed, if its answer has room.
pub fn try_line(
    stage: Stage,
    line: &[u8],
    arena: &mut [u32],
    table: &mut [u32],
    out: &mut [u8],
    at: usize,
) -> Option<Place>
    requires { Lent stage arena.old table.old × (at ≤ length out.old) }
    ensures { Tries result stage arena.old table.old arena.new table.new
        (serve (standing_of stage arena.old table.old) line.now)
        out.old out.new at }
{
    match stage {
        Stage::Before => try_first(line, arena, table, out, at),
        Stage::Serving(own) => try_request(own, line, arena, table, out, at),
        Stage::Stopped => Some(Place {
            stage: Stage::Stopped,
            at,
        }),
    }
}

// ---- bursts

// A place inside a burst: where the program stands, the place after what was answered, and the next byte.
#[derive(Clone, Copy)]
pub struct Turn {
    pub stage: Stage,
    pub at: usize,
    pub from: usize,
}

// As far as the end of the next line, or of the burst; nothing is done where the line's answer has no room.
fn serve_next(
    turn: Turn,
    line: &mut Line,
    arena: &mut [u32],
    table: &mut [u32],
    chunk: &[u8],
    out: &mut [u8],
) -> Option<Turn>
    requires going { Going turn arena.old table.old chunk.now out.old }
    requires from_in_bounds { turn.from < length chunk.now }
    ensures going_2 { MatchOption result (Going turn arena.new table.new chunk.now out.new)
        (λ next. Going next arena.new table.new chunk.now out.new × (turn.from < next.from)) }
    ensures out_after { MatchOption result
        (here turn line.new arena.new table.new chunk.now out.new
        ≡ ahead turn line.old arena.old table.old chunk.now out.old)
        (λ next. ahead next line.new arena.new table.new chunk.now out.new
        ≡ ahead turn line.old arena.old table.old chunk.now out.old) }
{
    let kept = line.bytes().len();
    let end = turn.from + line.keep_run(&chunk[turn.from..]);
    if end == chunk.len() {
        return Some(Turn { from: end, ..turn });
    }
    let Some(done) = try_line(turn.stage, line.bytes(), arena, table, out, turn.at) else {
        line.truncate(kept);
        return None;
    };
    line.truncate(0);
    Some(Turn {
        stage: done.stage,
        at: done.at,
        from: end + 1,
    })
}

// Serves a burst as far as there is room: the bytes after those that came before, which `line` keeps of an unfinished
// line. What arena and table hold beyond the pool's words is nobody's and is not said.
pub fn serve_burst(
    stage: Stage,
    line: &mut Line,
    arena: &mut [u32],
    table: &mut [u32],
    chunk: &[u8],
    out: &mut [u8],
) -> Turn
    requires { Lent stage arena.old table.old }
    ensures going { Going result arena.new table.new chunk.now out.new }
    ensures out_after { here result line.new arena.new table.new chunk.now
        out.new
        ≡ landed out.old 0 (burst serve (length out.old) (standing_of stage arena.old
        table.old) line.old chunk.now) }
{
    let mut turn = Turn {
        stage,
        at: 0,
        from: 0,
    };
    while turn.from < chunk.len() {
        let Some(next) = serve_next(turn, line, arena, table, chunk, out) else {
            return turn;
        };
        turn = next;
    }
    turn
}
