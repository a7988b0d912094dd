// Runs the calls that the script on standard input asks for on a session in a byte buffer, and writes each line with
// what came of it: number, bytes taken, bytes written, the answers, and whether the buffer is as it was.
//
// A line is a command, known by its first two letters, with its numbers; '#' starts a comment. In a text a blank is a
// tab and a slash is a line feed, in answers too.
//   lend N             the first N bytes of the buffer are lent from here on
//   fill V             V in all bytes of the buffer
//   start
//   burst R TEXT       the text, with room for R bytes of answers
//   end R
//   put I V..          bytes written into the buffer from byte I on
//   show               all bytes of the buffer that are not 0, each as its place and its value
//   save               keeps the buffer
//   back               brings back what was kept
//   cut TEXT           the text in one burst and in many cuttings
#![tactic(auto)]

ghost use Rattle.std.specs.Prelude.{◌≤◌, length};

use burst_runs::{NOTHING, UNTOUCHED, is_untouched};
use pool_bursts::Counts;
use std::io;
use std::io::Write;
use testing::read_full;
use testing::script::{Given, read_line};

// A buffer for a state and a few bytes more.
type Buffer = [u8; 36960];

// ---- texts

// What a byte of the script means in a text.
fn meant(b: u8) -> u8 {
    match b {
        b' ' => b'\t',
        b'/' => b'\n',
        _ => b,
    }
}

// How a byte of an answer is written.
fn shown(b: u8) -> u8 {
    match b {
        b'\t' => b' ',
        b'\n' => b'/',
        _ => b,
    }
}

// The text that a line has behind so many blanks, as far as there is room, at the start of `out`: how many bytes.
fn read_text(line: &[u8], blanks: u8, out: &mut [u8]) -> usize
    ensures { result ≤ length out.old }
{
    let n = usize::from(blanks);
    let part = line.splitn(n + 1, |b| *b == b' ').nth(n).unwrap_or(&[]);
    for (place, b) in out.iter_mut().zip(part) {
        *place = meant(*b);
    }
    part.len().min(out.len())
}

fn show_text(rt: &HostRuntime, s: &[u8]) -> io::Result<()> {
    for b in s {
        io::writer(rt).write_all(&[shown(*b)])?;
    }
    Ok(())
}

// ---- what came of a call

fn show_bytes(rt: &HostRuntime, s: &[u8]) -> io::Result<()> {
    print!(rt; "  bytes")?;
    for (i, v) in s.iter().enumerate() {
        if *v != 0 {
            print!(rt; " {i}:{v}")?;
        }
    }
    println!(rt)
}

// A call's numbers and its answers, and whether it wrote behind them.
fn show_counts(rt: &HostRuntime, c: Counts, answers: &[u8]) -> io::Result<()> {
    print!(rt;
        "  number {} taken {} written {}",
        c.number, c.taken, c.written
    )?;
    let (said, behind) = answers.split_at(c.written.min(answers.len()));
    if c.written > 0 {
        print!(rt; " answers ")?;
        show_text(rt, said)?;
    }
    if !is_untouched(behind) {
        print!(rt; "; bytes behind the answers changed")?;
    }
    Ok(())
}

// ---- commands

// A call on the session in the lent bytes.
#[derive(Clone, Copy)]
enum Call {
    Start,
    Burst,
    End,
}

#[derive(Clone, Copy)]
enum Command {
    Lend,
    OnSession(Call),
    Cut,
    Fill,
    Put,
    Show,
    Save,
    Back,
}

// The command of a line, or none, and then the line does nothing.
fn command_of(line: &[u8]) -> Option<Command> {
    match line {
        [b'l', b'e', ..] => Some(Command::Lend),
        [b's', b't', ..] => Some(Command::OnSession(Call::Start)),
        [b'b', b'u', ..] => Some(Command::OnSession(Call::Burst)),
        [b'e', b'n', ..] => Some(Command::OnSession(Call::End)),
        [b'c', b'u', ..] => Some(Command::Cut),
        [b'f', b'i', ..] => Some(Command::Fill),
        [b'p', b'u', ..] => Some(Command::Put),
        [b's', b'h', ..] => Some(Command::Show),
        [b's', b'a', ..] => Some(Command::Save),
        [b'b', b'a', ..] => Some(Command::Back),
        _ => None,
    }
}

// The first given number is the room for answers.
fn serve(
    rt: &HostRuntime,
    call: Call,
    line: &[u8],
    room: usize,
    state: &mut [u8],
    answers: &mut [u8],
) -> io::Result<()> {
    let n = room.min(answers.len());
    let c = match call {
        Call::Start => {
            let number = pool_bursts::start(state);
            return print!(rt; "  number {number}");
        }
        Call::Burst => {
            let mut asked = [0; 4096];
            let m = read_text(line, 2, &mut asked);
            pool_bursts::burst(state, &asked[..m], &mut answers[..n])
        }
        Call::End => pool_bursts::end(state, &mut answers[..n]),
    };
    show_counts(rt, c, answers)
}

// A call on the first bytes of the buffer, and whether the buffer is as it was.
fn call_lent(
    rt: &HostRuntime,
    kind: Call,
    line: &[u8],
    given: &Given,
    lent: usize,
    state: &mut Buffer,
    answers: &mut [u8],
) -> io::Result<()> {
    answers.fill(UNTOUCHED);
    let before = *state;
    let n = lent.min(state.len());
    let room = given.word(0) as usize;
    serve(rt, kind, line, room, &mut state[..n], answers)?;
    let change = if *state == before {
        "; the buffer as it was"
    } else {
        ""
    };
    println!(rt; "{change}")
}

// The text of a line, cut up. `answers` is one memory for the whole script: where the answers don't fit in it, what an
// earlier line left behind them is compared as well.
fn run_cut(rt: &HostRuntime, line: &[u8], answers: &mut [u8]) -> io::Result<()> {
    let mut asked = [0; 4096];
    let mut tally = NOTHING;
    let n = read_text(line, 1, &mut asked);
    let all = tally.run(rt, &asked[..n], answers, 0);
    print!(rt; "  answers ")?;
    show_text(rt, &answers[..all])?;
    println!(rt)?;
    println!(rt; " {tally}")
}

// Runs a line; answers how many bytes of the buffer are lent from here on. A line whose outcome can't be printed has run
// all the same.
fn run_line(
    rt: &HostRuntime,
    line: &[u8],
    lent: usize,
    state: &mut Buffer,
    saved: &mut Buffer,
    answers: &mut [u8],
) -> usize {
    let given = read_line(rt, line);
    let Some(command) = command_of(line) else {
        return lent;
    };
    match command {
        Command::Lend => return given.word(0) as usize,
        Command::OnSession(kind) => {
            let _ = call_lent(rt, kind, line, &given, lent, state, answers);
        }
        Command::Cut => {
            let _ = run_cut(rt, line, answers);
        }
        Command::Fill => state.fill((given.word(0) % 256) as u8),
        Command::Put => given.write(state),
        Command::Show => {
            let _ = show_bytes(rt, state);
        }
        Command::Save => *saved = *state,
        Command::Back => *state = *saved,
    }
    lent
}

// What was read before a failed read is run.
fn main(rt: HostRuntime) {
    let mut script = [0; 65536];
    let n = read_full(&mut rt.stdin(), &mut script);
    let mut state = [0; 36960];
    let mut saved = [0; 36960];
    let mut answers = [0; 4096];
    let mut lent = 0;
    for line in script[..n].split_inclusive(|b| *b == b'\n') {
        let line = line.strip_suffix(b"\n").unwrap_or(line);
        lent = run_line(&rt, line, lent, &mut state, &mut saved, &mut answers);
    }
}
