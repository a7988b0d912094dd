// The text program between a reader and a writer: it reads, hands over what was read as bursts, writes the answers, and
// reads again. What a burst does is pool_bursts' promise. Of what is read and written no contract here speaks.
#![tactic(auto)]

ghost use Rattle.std.specs.Prelude.{◌≡◌, ◌≤◌, ◌<◌, ℕ, eqb, length, get_or, IfOk, OnOk, OnErr};
ghost use Rattle.session.specs.Bursts.{most_answer};
ghost use Rattle.session.specs.Calls.{end_call};
ghost use Rattle.text_session.specs.Handing.{Ready, after, Took};

use std::io::{Read, Write};

// Standard error's number.
const STDERR: i32 = 2;

// What can go wrong with a reader or a writer.
#[derive(Clone, Copy)]
enum Trouble {
    Input,
    Output,
}

// Tells on standard error what went wrong.
fn complain(trouble: Trouble) {
    match trouble {
        Trouble::Input => io::write_all(STDERR, b"pool: the input could not be read\n"),
        Trouble::Output => io::write_all(STDERR, b"pool: the answers could not be written\n"),
    };
}

fn write_out<W: Write>(output: &mut W, answers: &[u8]) -> Result<(), Trouble> {
    output.write_all(answers).map_err(|_| Trouble::Output)
}

// Hands over the next piece of what was read, and writes its answers: how many bytes were taken of it. Some are also where
// the answers can't be written.
fn serve_piece<W: Write>(
    output: &mut W,
    state: &mut [u8],
    bytes: &[u8],
    piece: usize,
    answers: &mut [u8],
) -> Result<usize, Trouble>
    requires ready { Ready state.old × (most_answer ≤ length answers.old) }
    requires some { (0 < length bytes.now) × (0 < piece) }
    ensures ready_2 { Ready state.new }
    ensures taken { IfOk result (Took state.old state.new bytes.now) }
    ensures unwritten { OnErr result ((n : ℕ) × Took state.old state.new bytes.now n) }
{
    let end = piece.min(bytes.len());
    let done = pool_bursts::burst(state, &bytes[..end], answers);
    write_out(output, &answers[..done.written])?;
    Ok(done.taken)
}

// Hands over all that was read, in pieces of at most `piece` bytes, as long as answers can be written.
fn serve_read<W: Write>(
    output: &mut W,
    state: &mut [u8],
    bytes: &[u8],
    piece: usize,
    answers: &mut [u8],
) -> Result<(), Trouble>
    requires { Ready state.old × (most_answer ≤ length answers.old) × (0 < piece) }
    ensures ready { Ready state.new }
    ensures state_after { OnOk result (state.new ≡ after state.old bytes.now) }
{
    let mut rest = bytes;
    while !rest.is_empty() {
        let taken = serve_piece(output, state, rest, piece, answers)?;
        rest = &rest[taken..];
    }
    Ok(())
}

// Whether the program has stopped, by the low byte of the state's first word: then nothing more is read.
fn has_stopped(state: &[u8]) -> bool
    requires { 0 < length state.now }
    ensures { result ≡ eqb (get_or state.now 0 0) 3 }
{
    state[0] == 3
}

// One read, handed over: its answers are written before the next. Whether to read on.
fn read_once<R: Read, W: Write>(
    input: &mut R,
    output: &mut W,
    state: &mut [u8],
    chunk: &mut [u8],
    piece: usize,
    answers: &mut [u8],
) -> Result<bool, Trouble>
    requires { Ready state.old × (most_answer ≤ length answers.old) × (0 < piece) }
    ensures { Ready state.new }
{
    let n = input.read(chunk).map_err(|_| Trouble::Input)?;
    serve_read(output, state, &chunk[..n], piece, answers)?;
    Ok((n != 0) & !has_stopped(&*state))
}

// The end of the input: a last line without a line feed counts if not empty.
fn finish<W: Write>(output: &mut W, state: &mut [u8], answers: &mut [u8]) -> Result<(), Trouble>
    requires { Ready state.old × (most_answer ≤ length answers.old) }
    ensures { state.new ≡ (end_call state.old answers.old).state }
{
    let done = pool_bursts::end(state, answers);
    write_out(output, &answers[..done.written])
}

// All reads of a session, as long as nothing fails, and its end.
fn converse<R: Read, W: Write>(
    input: &mut R,
    output: &mut W,
    state: &mut [u8],
    chunk: &mut [u8],
    piece: usize,
    answers: &mut [u8],
) -> Result<(), Trouble>
    requires { Ready state.old × (most_answer ≤ length answers.old) × (0 < piece) }
{
    for _ in 0..u64::MAX {
        if !read_once(input, output, state, chunk, piece, answers)? {
            break;
        }
    }
    finish(output, state, answers)
}

// Serves all of the input, in pieces of at most `piece` bytes, which makes no difference to the answers. Whether nothing
// failed.
pub fn run<R: Read, W: Write>(input: &mut R, output: &mut W, piece: usize) -> bool
    requires { 0 < piece }
{
    let mut state = [0u8; 36956];
    let mut chunk = [0u8; 65536];
    let mut answers = [0u8; 65536];
    pool_bursts::start(&mut state);
    let ended = converse(input, output, &mut state, &mut chunk, piece, &mut answers);
    if let Err(trouble) = ended {
        complain(trouble);
    }
    ended.is_ok()
}
