// A case handed over in bursts of many cuttings, each held to one burst with room enough, and that to the text program.
ghost use Rattle.io.specs.Counts.{IsPrefixLen};

use burst_runs::NOTHING;
use std::fs;
use std::rt::Files;
use testing::read_full;

// The bytes of a file, up to a read that fails, at the start of `out`: how many. A file that can't be opened has none.
fn read_file<R: Files>(rt: &R, name: &str, out: &mut [u8]) -> usize
    ensures { IsPrefixLen result out.new }
{
    let Ok(mut file) = fs::open(rt, name) else {
        return 0;
    };
    read_full(&mut file, out)
}

// What the text program writes on a case, by way of a file, at the start of `out`: how many bytes; none where a file
// can't be opened or created.
fn answers_to<R: Files>(rt: &R, name: &str, out: &mut [u8]) -> usize
    ensures { IsPrefixLen result out.new }
{
    let Ok(mut input) = fs::open(rt, name) else {
        return 0;
    };
    let Ok(mut output) = fs::create(rt, "answers") else {
        return 0;
    };
    text_session::run(&mut input, &mut output, 65536);
    read_file(rt, "answers", out)
}

// The case in bursts, held to the answers of the text program.
fn try_text(rt: &impl Print, text: &[u8], answers: &[u8], due: &mut [u8]) {
    let mut tally = NOTHING;
    let n = tally.run(rt, text, due, 128);
    tally.compare(rt, &due[..n] == answers, "the text program");
    let _ = println!(rt; "{tally}");
}

pub fn run_case<R: Files + Print>(rt: &R, name: &str) {
    let mut text = [0; 131072];
    let mut answers = [0; 262144];
    let mut due = [0; 262144];
    let n = read_file(rt, name, &mut text);
    let m = answers_to(rt, name, &mut answers);
    try_text(rt, &text[..n], &answers[..m], &mut due);
}
