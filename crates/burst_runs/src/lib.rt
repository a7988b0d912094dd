// A text handed over to a session of the text program in bursts of many cuttings, with rooms from none up. Each cutting
// is held to one burst with room enough: the same answers and the same state, byte for byte. Each call is held to its
// rule: it takes all, or stops before a line whose answer does not fit, and writes nothing behind its answers. The
// state that a text leaves is then tried with one byte spoiled.
#![tactic(auto)]

ghost use Rattle.std.specs.Prelude.{◌≡◌, ◌+◌, ◌^◌, ◌%◌, ◌<◌, ◌≤◌, ◌↔◌, All, IsTrue, length};

use pool_bursts::Counts;
use std::fmt;
use testing::{pick, stirred};

// The bytes of a session.
type State = [u8; 36956];

// ---- counts

// Calls made, those that were answered 10, comparisons, and comparisons that failed.
#[derive(Clone, Copy)]
pub struct Tally {
    pub calls: u64,
    pub tens: u64,
    pub compared: u64,
    pub differences: u64,
}

pub const NOTHING: Tally = Tally {
    calls: 0,
    tens: 0,
    compared: 0,
    differences: 0,
};

impl fmt::Display for Tally {
    fn fmt<W: fmt::Write>(&self, f: &mut fmt::Formatter<W>) -> fmt::Result {
        write!(
            f,
            "{} calls, {} of them 10, {} comparisons, {} differences",
            self.calls, self.tens, self.compared, self.differences
        )
    }
}

impl Tally {
    // A call more, answered with this number.
    fn call(&mut self, number: u32) {
        self.calls = self.calls.wrapping_add(1);
        self.tens = self.tens.wrapping_add(u64::from(number == 10));
    }

    // A comparison more; the first ones that failed are told in words, where they can be printed.
    pub fn compare(&mut self, rt: &impl Print, fine: bool, what: &str)
        ensures { self.new.compared ≡ (self.old.compared + 1) % 2 ^ 64 }
    {
        self.compared = self.compared.wrapping_add(1);
        if fine {
            return;
        }
        let before = self.differences;
        self.differences = before.wrapping_add(1);
        if before < 20 {
            let _ = println!(rt; "{} calls, and then differs: {what}", self.calls);
        }
    }
}

// ---- bytes

// No answer has this byte.
pub const UNTOUCHED: u8 = 255;

// Whether no byte was touched.
pub fn is_untouched(s: &[u8]) -> bool
    ensures { IsTrue result ↔ All (λ b. b ≡ UNTOUCHED) s.now }
{
    s.iter().all(|b| *b == UNTOUCHED)
}

// ---- what is due: one burst with room enough, and the end call

// A text; the memory that the answers due to it begin, how many of them there are, and how many the burst's are, the end
// call's being behind these; the states after the two.
#[derive(Clone, Copy)]
pub struct Due<'a> {
    pub text: &'a [u8],
    pub memory: &'a [u8],
    pub all: usize,
    pub said: usize,
    pub after: &'a State,
    pub ended: &'a State,
}

impl Due<'_> {
    fn answers(&self) -> &[u8] {
        self.memory.get(..self.all).unwrap_or(self.memory)
    }
}

fn start(tally: &mut Tally, rt: &impl Print, state: &mut State) {
    tally.compare(rt, pool_bursts::start(state) == 0, "start")
}

// All of the text in one burst: how many answer bytes.
fn in_one(
    tally: &mut Tally,
    rt: &impl Print,
    text: &[u8],
    state: &mut State,
    due: &mut [u8],
) -> usize
    ensures { result ≤ length due.old }
{
    let c = pool_bursts::burst(state, text, due);
    tally.call(c.number);
    tally.compare(rt, c.number == 0 && c.taken == text.len(), "one burst");
    c.written.min(due.len())
}

// The end call behind it: how many answer bytes.
fn and_end(tally: &mut Tally, rt: &impl Print, state: &mut State, due: &mut [u8]) -> usize
    ensures { result ≤ length due.old }
{
    let c = pool_bursts::end(state, due);
    tally.call(c.number);
    tally.compare(rt, c.number == 0 && c.taken == 0, "its end");
    c.written.min(due.len())
}

// ---- a cutting

// How far the handing over of a text has come: the bytes taken, the answer bytes, the last random number.
#[derive(Clone, Copy)]
struct Talk {
    from: usize,
    at: usize,
    seed: u64,
}

// The bytes of the next burst: one in the first cutting, a random number of them in the others.
fn piece_of(cutting: u64, seed: u64) -> usize {
    let most = match cutting % 4 {
        _ if cutting == 0 => return 1,
        0 => 3000,
        1 => 3,
        2 => 12,
        _ => 80,
    };
    pick(seed, most) as usize
}

// The room for its answers: ample in the first cutting; in the others 0 to 40, or, one time of ten, ample.
fn room_of(cutting: u64, seed: u64) -> usize {
    let room = pick(seed, 45) as usize;
    if cutting == 0 || room > 40 {
        return 200;
    }
    room
}

// The length of the first line of answers, its line feed counted.
fn line_length(answers: &[u8]) -> usize {
    let at = answers.iter().position(|b| *b == b'\n');
    at.unwrap_or(answers.len()).wrapping_add(1)
}

// Whether a stop in a burst is before the first byte there of a line that ends in the burst.
fn is_before_line(bytes: &[u8], taken: usize) -> bool {
    let (Some(front), Some(rest)) = (bytes.get(..taken), bytes.get(taken..)) else {
        return false;
    };
    front.last().is_none_or(|b| *b == b'\n') && rest.contains(&b'\n')
}

// Whether a call's numbers are right, where `due` begins with the answers still to come: all is taken, or the call stops before
// a line whose answer does not fit.
fn is_right(c: Counts, bytes: &[u8], room: usize, due: &[u8]) -> bool {
    if c.written > room {
        return false;
    }
    match c.number {
        0 => c.taken == bytes.len(),
        10 => {
            let rest = due.get(c.written..).unwrap_or(&[]);
            is_before_line(bytes, c.taken) && line_length(rest) > room - c.written
        }
        _ => false,
    }
}

impl Tally {
    // One call: the next bytes of the text, with so much room for their answers.
    fn hand_over(
        &mut self,
        rt: &impl Print,
        talk: Talk,
        cutting: u64,
        due: &Due,
        state: &mut State,
        answers: &mut [u8],
    ) -> Talk {
        let a = stirred(talk.seed);
        let b = stirred(a);
        let from = talk.from.min(due.text.len());
        let to = from + piece_of(cutting, a).min(due.text.len() - from);
        let at = talk.at.min(answers.len()).min(due.memory.len());
        let end = at + room_of(cutting, b).min(answers.len() - at);
        let bytes = &due.text[from..to];
        let room = &mut answers[at..end];
        let c = pool_bursts::burst(state, bytes, room);
        self.call(c.number);
        let right = is_right(c, bytes, end - at, &due.memory[at..]);
        self.compare(rt, right, "a call's numbers");
        let behind = room.get(c.written..).is_none_or(|part| is_untouched(part));
        self.compare(rt, behind, "bytes behind the answers");
        Talk {
            from: from.wrapping_add(c.taken),
            at: at.wrapping_add(c.written),
            seed: b,
        }
    }

    // All bursts of a cutting; bytes not taken are handed over again. More than four calls for each byte, and a thousand,
    // are a difference, for the text is then not taken whole.
    fn hand_all(
        &mut self,
        rt: &impl Print,
        cutting: u64,
        due: &Due,
        state: &mut State,
        answers: &mut [u8],
    ) -> Talk {
        let mut talk = Talk {
            from: 0,
            at: 0,
            seed: cutting,
        };
        for _ in 0..4 * (due.text.len() % 1048576) + 1000 {
            if talk.from >= due.text.len() {
                break;
            }
            talk = self.hand_over(rt, talk, cutting, due, state, answers);
        }
        talk
    }

    // ---- the end of a cutting

    // An end call that has to tell these numbers.
    fn end(
        &mut self,
        rt: &impl Print,
        state: &mut State,
        room: &mut [u8],
        number: u32,
        written: usize,
        what: &str,
    ) {
        let c = pool_bursts::end(state, room);
        self.call(c.number);
        let fine = c.number == number && c.taken == 0 && c.written == written;
        self.compare(rt, fine, what)
    }

    // The end call with a byte less than the room that its answer needs: nothing changes. An end call without an answer
    // needs no room.
    fn end_short(&mut self, rt: &impl Print, state: &mut State, after: &State, room: &mut [u8]) {
        let Some((_, short)) = room.split_last_mut() else {
            return;
        };
        self.end(rt, state, short, 10, 0, "an end call without room");
        self.compare(rt, is_untouched(room), "its answer bytes");
        self.compare(rt, *state == *after, "its state")
    }

    // The end calls: without room, with just the room that the answer needs, and once more, when no line is left.
    fn finish(&mut self, rt: &impl Print, due: &Due, state: &mut State, answers: &mut [u8]) {
        let all = due.answers().len().min(answers.len());
        let said = due.said.min(all);
        let room = &mut answers[said..all];
        let n = room.len();
        self.end_short(rt, state, due.after, room);
        self.end(rt, state, room, 0, n, "an end call");
        self.end(rt, state, &mut [UNTOUCHED], 0, 0, "a second end call");
        self.compare(rt, *state == *due.ended, "the state after the end")
    }

    // A whole cutting: its bursts, which have to take all of the text and write as many answer bytes as are due, its
    // end, and all its answers.
    fn cut(
        &mut self,
        rt: &impl Print,
        cutting: u64,
        due: &Due,
        state: &mut State,
        answers: &mut [u8],
    ) {
        answers.fill(UNTOUCHED);
        start(self, rt, state);
        let talk = self.hand_all(rt, cutting, due, state, answers);
        let whole = talk.from == due.text.len() && talk.at == due.said;
        self.compare(rt, whole, "the bytes taken or written in all");
        self.compare(rt, *state == *due.after, "the state");
        self.finish(rt, due, state, answers);
        self.compare(rt, answers.starts_with(due.answers()), "the answers")
    }

    // ---- a state with a byte spoiled that it does not use

    // Both calls on what is no state: 1, and nothing more.
    fn refused(&mut self, rt: &impl Print, state: &mut State) {
        let mut room = [UNTOUCHED; 40];
        let c = pool_bursts::burst(state, b"A\t1\n", &mut room);
        self.call(c.number);
        let fine = c.number == 1 && c.taken == 0 && c.written == 0;
        self.compare(rt, fine, "a burst on a spoiled state");
        self.end(rt, state, &mut room, 1, 0, "an end call on a spoiled state");
        self.compare(rt, is_untouched(&room), "the answers of a spoiled state")
    }

    // Spoils the byte at place i if it is not used, which is then 0.
    fn spoil(&mut self, rt: &impl Print, i: usize, state: &mut State)
        requires { i < 36956 }
    {
        if !is_unused(state, i) {
            return;
        }
        state[i] = 1;
        let spoiled = *state;
        self.refused(rt, state);
        self.compare(rt, *state == spoiled, "a spoiled state");
        state[i] = 0;
    }

    // ---- all of it

    // The text in one burst and in every cutting, and so many bytes of its state spoiled, one at a time, all over it.
    // `answers` becomes what is due, and how many bytes that are is answered.
    pub fn run(&mut self, rt: &impl Print, text: &[u8], answers: &mut [u8], spoiled: usize) -> usize
        ensures { result ≤ length answers.old }
    {
        let mut after = [0; 36956];
        start(self, rt, &mut after);
        let said = in_one(self, rt, text, &mut after, answers);
        let mut ended = after;
        let all = said + and_end(self, rt, &mut ended, &mut answers[said..]);
        let due = Due {
            text,
            memory: answers,
            all,
            said,
            after: &after,
            ended: &ended,
        };
        let mut state = [0; 36956];
        let mut again = [0; 262144];
        for cutting in 0..count_of(text.len()) {
            self.cut(rt, cutting, &due, &mut state, &mut again);
        }
        state = after;
        for i in 0..spoiled {
            let place = (text.len() % 36956 + i % 36956 * 289) % 36956;
            self.spoil(rt, place, &mut state);
        }
        due.all
    }
}

// How many cuttings: more of a text that is soon handed over.
fn count_of(length: usize) -> u64 {
    if length < 4096 { 33 } else { 5 }
}

// The low half of one of the six words at a state's start.
fn size_at(state: &State, i: usize) -> usize
    ensures { result ≤ 65535 }
{
    let at = i % 6 * 4;
    usize::from(u16::from_le_bytes([state[at], state[at + 1]]))
}

// Whether a state does not use the byte at place i: it is behind the unfinished line, the table or the arena.
fn is_unused(state: &State, i: usize) -> bool {
    let kept = size_at(state, 1);
    let words = size_at(state, 2);
    let slots = size_at(state, 3);
    let line = 24 + kept <= i && i < 92;
    let table = 92 + 16 * slots <= i && i < 4188;
    line || table || 4188 + 4 * words <= i
}
