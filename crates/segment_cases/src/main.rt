// Runs the script on standard input on a segment pool, and writes each line with what came of it.
//
// A line is a command, known by its first two letters, with its numbers; '#' starts a comment.
//   lend S W T I       S segments, arena of W words, table of T words and index of I words, all zero; party 1
//   arena I V..        words written into the arena from word I on, signed
//   table I V..        words written into the table from word I on
//   index I V..        words written into the index from word I on
//   head N             next ticket
//   party C            the party of the calls that follow
//   format F           with first ticket F, or 1 if there is no number
//   allocate N         release T A W      find T A W      look T A W      trim T A W K
//   list N K V..       a list of N words, V over and over, with K words for its answers, which start as sevens
//   copy N T V..       an old table of N words, V over and over, copied into the first T words of the table
#![tactic(auto)]

use segment_check::Head;
use segment_requests::Outcome;
use std::io;
use testing::printing::{Shown, Told};
use testing::read_full;
use testing::script::{Given, read_line};

// ---- the pool

// A pool in the words that are lent to it, and the party that calls.
#[derive(Drop)]
struct Pool<'a> {
    head: Head,
    segments: u32,
    party: u32,
    arena: &'a mut [i32],
    table: &'a mut [u32],
    index: &'a mut [u32],
}

impl Pool<'_> {
    fn show(&self, rt: &impl Print) -> io::Result<()> {
        println!(rt; "  head {}", self.head.next)?;
        println!(rt; "  arena{}", Shown(self.arena))?;
        println!(rt; "  table{}", Shown(self.table))?;
        println!(rt; "  index{}", Shown(self.index))
    }

    // What came of a call: the outcome's head is the pool's.
    fn show_outcome(&mut self, rt: &impl Print, outcome: Outcome) -> io::Result<()> {
        self.head = outcome.head;
        println!(rt; "{}", Told(outcome.answer))?;
        self.show(rt)
    }

    // A refused format hands back a head of zeros; the pool keeps the head that it had.
    fn format(&mut self, rt: &impl Print, given: &Given) -> io::Result<()> {
        let head = self.head;
        let first = given.word_or_one(0);
        let outcome = segment_pool::format(
            self.segments,
            self.arena,
            self.table,
            self.index,
            first,
        );
        let shown = self.show_outcome(rt, outcome);
        if outcome.answer.number != 0 {
            self.head = head;
        }
        shown
    }

    fn allocate(&mut self, rt: &impl Print, words: u32) -> io::Result<()> {
        let done = segment_pool::allocate(
            self.head,
            self.segments,
            self.arena,
            self.table,
            self.index,
            self.party,
            words,
        );
        self.head = done.head;
        println!(rt; "{}", Told(done.answer))?;
        println!(rt; "  places {}", done.places)?;
        self.show(rt)
    }

    fn release(&mut self, rt: &impl Print, given: &Given) -> io::Result<()> {
        let named = given.row(self.party);
        let outcome = segment_pool::release(
            self.head,
            self.segments,
            self.arena,
            self.table,
            self.index,
            named,
        );
        self.show_outcome(rt, outcome)
    }

    // The fourth given number is the words to keep.
    fn trim(&mut self, rt: &impl Print, given: &Given) -> io::Result<()> {
        let (named, keep) = (given.row(self.party), given.word(3));
        let outcome = segment_pool::trim(
            self.head,
            self.segments,
            self.arena,
            self.table,
            self.index,
            named,
            keep,
        );
        self.show_outcome(rt, outcome)
    }

    fn find(&self, rt: &impl Print, given: &Given) -> io::Result<()> {
        let named = given.row(self.party);
        let answer = segment_pool::find(
            self.head,
            self.segments,
            self.arena,
            self.table,
            self.index,
            named,
        );
        println!(rt; "{}", Told(answer))?;
        self.show(rt)
    }

    fn look(&self, rt: &impl Print, given: &Given) -> io::Result<()> {
        let named = given.row(self.party);
        let placeholder = [777777777, 888888888];
        let shown = segment_pool::look(
            self.head,
            self.segments,
            self.arena,
            self.table,
            self.index,
            &placeholder,
            named,
        );
        println!(rt; "  shown{}", Shown(shown))?;
        self.show(rt)
    }

    // A list is made of the given words.
    fn list(
        &mut self,
        rt: &impl Print,
        given: &Given,
        asked: &mut [u32],
        answers: &mut [u32],
    ) -> io::Result<()> {
        given.write_list(asked);
        let n = (given.word(0) as usize).min(asked.len());
        let k = (given.word(1) as usize).min(answers.len());
        let answers = &mut answers[..k];
        answers.fill(7);
        let outcome = segment_pool::list(
            self.head,
            self.segments,
            self.arena,
            self.table,
            self.index,
            self.party,
            &asked[..n],
            answers,
        );
        self.head = outcome.head;
        println!(rt; "{}", Told(outcome.answer))?;
        println!(rt; "  answers{}", Shown(answers))?;
        self.show(rt)
    }

    // An old table is made of the given words, and copied into the table.
    fn copy(&mut self, rt: &impl Print, given: &Given, old: &mut [u32]) -> io::Result<()> {
        given.write_list(old);
        let n = (given.word(0) as usize).min(old.len());
        let t = (given.word(1) as usize).min(self.table.len());
        let copied = old_tables::copy_table(&old[..n], &mut self.table[..t]);
        let number = copied.map_or_else(|why| why.number(), |_| 0);
        println!(rt; "  number {number}")?;
        self.show(rt)
    }
}

// ---- commands

// What a line asks of a pool.
#[derive(Clone, Copy)]
enum Call {
    Arena,
    Table,
    Index,
    Head,
    Format,
    Allocate,
    Release,
    Find,
    Look,
    Trim,
    List,
    Copy,
}

#[derive(Clone, Copy)]
enum Command {
    Lend,
    Party,
    OnPool(Call),
}

// The command of a line, or none, and then the line does nothing.
fn command_of(line: &[u8]) -> Option<Command> {
    let call = match line {
        [b'l', b'e', ..] => return Some(Command::Lend),
        [b'p', b'a', ..] => return Some(Command::Party),
        [b'a', b'r', ..] => Call::Arena,
        [b't', b'a', ..] => Call::Table,
        [b'i', b'n', ..] => Call::Index,
        [b'h', b'e', ..] => Call::Head,
        [b'f', b'o', ..] => Call::Format,
        [b'a', b'l', ..] => Call::Allocate,
        [b'r', b'e', ..] => Call::Release,
        [b'f', b'i', ..] => Call::Find,
        [b'l', b'o', ..] => Call::Look,
        [b't', b'r', ..] => Call::Trim,
        [b'l', b'i', ..] => Call::List,
        [b'c', b'o', ..] => Call::Copy,
        _ => return None,
    };
    Some(Command::OnPool(call))
}

// `asked` and `answers` are memory for a list, and `asked` for an old table.
fn serve(
    rt: &impl Print,
    pool: &mut Pool,
    call: Call,
    given: &Given,
    asked: &mut [u32],
    answers: &mut [u32],
) -> io::Result<()> {
    match call {
        Call::Arena => given.write(pool.arena),
        Call::Table => given.write(pool.table),
        Call::Index => given.write(pool.index),
        Call::Head => {
            pool.head = Head {
                next: given.word(0),
            }
        }
        Call::Format => pool.format(rt, given)?,
        Call::Allocate => pool.allocate(rt, given.word(0))?,
        Call::Release => pool.release(rt, given)?,
        Call::Find => pool.find(rt, given)?,
        Call::Look => pool.look(rt, given)?,
        Call::Trim => pool.trim(rt, given)?,
        Call::List => pool.list(rt, given, asked, answers)?,
        Call::Copy => pool.copy(rt, given, asked)?,
    }
    Ok(())
}

// The head of the pool, the number of segments, the party that calls, and how many words of the three buffers are lent.
#[derive(Clone, Copy)]
struct Lent {
    head: Head,
    segments: u32,
    party: u32,
    words: usize,
    table_words: usize,
    index_words: usize,
}

const NOTHING: Lent = Lent {
    head: Head { next: 0 },
    segments: 0,
    party: 1,
    words: 0,
    table_words: 0,
    index_words: 0,
};

// A line whose outcome can't be printed has run all the same.
fn run_line(
    rt: &impl Print,
    lent: Lent,
    line: &[u8],
    arena: &mut [i32],
    table: &mut [u32],
    index: &mut [u32],
    asked: &mut [u32],
    answers: &mut [u32],
) -> Lent {
    let given = read_line(rt, line);
    match command_of(line) {
        None => lent,
        Some(Command::Lend) => {
            arena.fill(0);
            table.fill(0);
            index.fill(0);
            Lent {
                segments: given.word(0),
                words: given.word(1) as usize,
                table_words: given.word(2) as usize,
                index_words: given.word(3) as usize,
                ..NOTHING
            }
        }
        Some(Command::Party) => Lent {
            party: given.word(0),
            ..lent
        },
        Some(Command::OnPool(call)) => {
            let w = lent.words.min(arena.len());
            let t = lent.table_words.min(table.len());
            let n = lent.index_words.min(index.len());
            let mut pool = Pool {
                head: lent.head,
                segments: lent.segments,
                party: lent.party,
                arena: &mut arena[..w],
                table: &mut table[..t],
                index: &mut index[..n],
            };
            let _ = serve(rt, &mut pool, call, &given, asked, answers);
            Lent {
                head: pool.head,
                ..lent
            }
        }
    }
}

// What was read before a failed read is run.
fn main(rt: HostRuntime) {
    let mut text = [0; 131072];
    let n = read_full(&mut rt.stdin(), &mut text);
    let mut arena = [0; 16400];
    let mut table = [0; 1100];
    let mut index = [0; 1600];
    let mut asked = [0; 4200];
    let mut answers = [0; 4200];
    let mut lent = NOTHING;
    for line in text[..n].split_inclusive(|b| *b == b'\n') {
        let line = line.strip_suffix(b"\n").unwrap_or(line);
        lent = run_line(
            &rt,
            lent,
            line,
            &mut arena,
            &mut table,
            &mut index,
            &mut asked,
            &mut answers,
        );
    }
}
