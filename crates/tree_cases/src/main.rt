// Runs the calls that the script on standard input asks for on a tree pool, and writes each line with what came of it.
//
// A line is a command, known by its first two letters, with its numbers; '#' starts a comment.
//   lend W T           arena of W words and table of T words, all zero; a head of form 1 with no block and no ticket
//   arena I V..        words written into the arena from word I on
//   table I V..        words written into the table from word I on
//   head R N M         root link, next ticket and form; form 1 if it has two numbers
//   format M F         of form M with first ticket F; each is 1 if it is not there
//   words I N          shows N words of the arena from word I on
//   party P            the party of the calls that follow, 1 after lend
//   allocate N         release T A W      find T A W      look T A W      trim T A W K
//   list N K V..       a list of N words, V over and over, with K words for its answers, which start as sevens
//   copy N T V..       an old table of N words, V over and over, copied into the first T words of the table
#![tactic(auto)]

use std::io;
use testing::printing::{Shown, Told};
use testing::read_full;
use testing::script::{Given, read_line};
use tree_check::Head;
use tree_requests::Outcome;

// ---- the pool

// A pool in the words that are lent to it, and the party that calls.
#[derive(Drop)]
struct Pool<'a> {
    head: Head,
    party: u32,
    arena: &'a mut [u32],
    table: &'a mut [u32],
}

impl Pool<'_> {
    fn show(&self, rt: &impl Print) -> io::Result<()> {
        let head = self.head;
        println!(rt; "  head {} {} {}", head.root, head.next, head.form)?;
        println!(rt; "  arena{}", Shown(self.arena))?;
        println!(rt; "  table{}", Shown(self.table))
    }

    // What came of a call: the outcome's head is the pool's.
    fn show_outcome(&mut self, rt: &impl Print, outcome: Outcome) -> io::Result<()> {
        self.head = outcome.head;
        println!(rt; "{}", Told(outcome.answer))?;
        self.show(rt)
    }

    // A refused format hands back a head of zeros; the pool keeps the head that it had.
    fn format(&mut self, rt: &impl Print, given: &Given) -> io::Result<()> {
        let head = self.head;
        let (form, first) = (given.word_or_one(0), given.word_or_one(1));
        let outcome = tree_pool::format(form, self.arena, self.table, first);
        let shown = self.show_outcome(rt, outcome);
        if outcome.answer.number != 0 {
            self.head = head;
        }
        shown
    }

    fn allocate(&mut self, rt: &impl Print, words: u32) -> io::Result<()> {
        let outcome = tree_pool::allocate(self.head, self.arena, self.table, self.party, words);
        self.show_outcome(rt, outcome)
    }

    fn release(&mut self, rt: &impl Print, given: &Given) -> io::Result<()> {
        let named = given.row(self.party);
        let outcome = tree_pool::release(self.head, self.arena, self.table, named);
        self.show_outcome(rt, outcome)
    }

    // The fourth given number is the words to keep.
    fn trim(&mut self, rt: &impl Print, given: &Given) -> io::Result<()> {
        let (named, keep) = (given.row(self.party), given.word(3));
        let outcome = tree_pool::trim(self.head, self.arena, self.table, named, keep);
        self.show_outcome(rt, outcome)
    }

    fn find(&self, rt: &impl Print, given: &Given) -> io::Result<()> {
        let named = given.row(self.party);
        let answer = tree_pool::find(self.head, self.arena, self.table, named);
        println!(rt; "{}", Told(answer))?;
        self.show(rt)
    }

    fn look(&self, rt: &impl Print, given: &Given) -> io::Result<()> {
        let named = given.row(self.party);
        let placeholder = [777777777, 888888888];
        let shown = tree_pool::look(self.head, self.arena, self.table, &placeholder, named);
        println!(rt; "  shown{}", Shown(shown))?;
        self.show(rt)
    }

    // A list is made of the given words.
    fn list(
        &mut self,
        rt: &impl Print,
        given: &Given,
        asked: &mut [u32],
        answers: &mut [u32],
    ) -> io::Result<()> {
        given.write_list(asked);
        let n = (given.word(0) as usize).min(asked.len());
        let k = (given.word(1) as usize).min(answers.len());
        let answers = &mut answers[..k];
        answers.fill(7);
        let (head, party) = (self.head, self.party);
        let outcome = tree_pool::list(head, self.arena, self.table, party, &asked[..n], answers);
        self.head = outcome.head;
        println!(rt; "{}", Told(outcome.answer))?;
        println!(rt; "  answers{}", Shown(answers))?;
        self.show(rt)
    }

    // An old table is made of the given words, and copied into the table.
    fn copy(&mut self, rt: &impl Print, given: &Given, old: &mut [u32]) -> io::Result<()> {
        given.write_list(old);
        let n = (given.word(0) as usize).min(old.len());
        let t = (given.word(1) as usize).min(self.table.len());
        let copied = old_tables::copy_table(&old[..n], &mut self.table[..t]);
        let number = copied.map_or_else(|why| why.number(), |_| 0);
        println!(rt; "  number {number}")?;
        self.show(rt)
    }

    // So many words of the arena, as far as there are any.
    fn show_words(&self, rt: &impl Print, given: &Given) -> io::Result<()> {
        let from = (given.word(0) as usize).min(self.arena.len());
        let count = (given.word(1) as usize).min(self.arena.len() - from);
        println!(rt; "  words{}", Shown(&self.arena[from..from + count]))
    }

    fn set_head(&mut self, given: &Given) {
        self.head = Head {
            root: given.word(0),
            next: given.word(1),
            form: given.word_or_one(2),
        };
    }
}

// ---- commands

// What a line asks of a pool.
#[derive(Clone, Copy)]
enum Call {
    Arena,
    Table,
    Head,
    Format,
    Words,
    Allocate,
    Release,
    Find,
    Look,
    Trim,
    List,
    Copy,
}

#[derive(Clone, Copy)]
enum Command {
    Lend,
    Party,
    OnPool(Call),
}

// The command of a line, or none, and then the line does nothing.
fn command_of(line: &[u8]) -> Option<Command> {
    let call = match line {
        [b'l', b'e', ..] => return Some(Command::Lend),
        [b'p', b'a', ..] => return Some(Command::Party),
        [b'a', b'r', ..] => Call::Arena,
        [b't', b'a', ..] => Call::Table,
        [b'h', b'e', ..] => Call::Head,
        [b'f', b'o', ..] => Call::Format,
        [b'w', b'o', ..] => Call::Words,
        [b'a', b'l', ..] => Call::Allocate,
        [b'r', b'e', ..] => Call::Release,
        [b'f', b'i', ..] => Call::Find,
        [b'l', b'o', ..] => Call::Look,
        [b't', b'r', ..] => Call::Trim,
        [b'l', b'i', ..] => Call::List,
        [b'c', b'o', ..] => Call::Copy,
        _ => return None,
    };
    Some(Command::OnPool(call))
}

// `asked` and `answers` are memory for a list, and `asked` for an old table.
fn serve(
    rt: &impl Print,
    pool: &mut Pool,
    call: Call,
    given: &Given,
    asked: &mut [u32],
    answers: &mut [u32],
) -> io::Result<()> {
    match call {
        Call::Arena => given.write(pool.arena),
        Call::Table => given.write(pool.table),
        Call::Head => pool.set_head(given),
        Call::Format => pool.format(rt, given)?,
        Call::Words => pool.show_words(rt, given)?,
        Call::Allocate => pool.allocate(rt, given.word(0))?,
        Call::Release => pool.release(rt, given)?,
        Call::Find => pool.find(rt, given)?,
        Call::Look => pool.look(rt, given)?,
        Call::Trim => pool.trim(rt, given)?,
        Call::List => pool.list(rt, given, asked, answers)?,
        Call::Copy => pool.copy(rt, given, asked)?,
    }
    Ok(())
}

// The head of the pool, the party that calls, and how many words of the two buffers are lent.
#[derive(Clone, Copy)]
struct Lent {
    head: Head,
    party: u32,
    words: usize,
    table_words: usize,
}

// A pool of form 1 that has no free block and no ticket left, and no words.
const NOTHING: Lent = Lent {
    head: Head {
        root: 0,
        next: 0,
        form: 1,
    },
    party: 1,
    words: 0,
    table_words: 0,
};

// A line whose outcome can't be printed has run all the same.
fn run_line(
    rt: &impl Print,
    lent: Lent,
    line: &[u8],
    arena: &mut [u32],
    table: &mut [u32],
    asked: &mut [u32],
    answers: &mut [u32],
) -> Lent {
    let given = read_line(rt, line);
    match command_of(line) {
        None => lent,
        Some(Command::Lend) => {
            arena.fill(0);
            table.fill(0);
            Lent {
                words: given.word(0) as usize,
                table_words: given.word(1) as usize,
                ..NOTHING
            }
        }
        Some(Command::Party) => Lent {
            party: given.word(0),
            ..lent
        },
        Some(Command::OnPool(call)) => {
            let w = lent.words.min(arena.len());
            let t = lent.table_words.min(table.len());
            let mut pool = Pool {
                head: lent.head,
                party: lent.party,
                arena: &mut arena[..w],
                table: &mut table[..t],
            };
            let _ = serve(rt, &mut pool, call, &given, asked, answers);
            Lent {
                head: pool.head,
                ..lent
            }
        }
    }
}

// What was read before a failed read is run.
fn main(rt: HostRuntime) {
    let mut text = [0; 131072];
    let n = read_full(&mut rt.stdin(), &mut text);
    let mut arena = [0; 300000];
    let mut table = [0; 1100];
    let mut asked = [0; 4200];
    let mut answers = [0; 4200];
    let mut lent = NOTHING;
    for line in text[..n].split_inclusive(|b| *b == b'\n') {
        let line = line.strip_suffix(b"\n").unwrap_or(line);
        lent = run_line(
            &rt,
            lent,
            line,
            &mut arena,
            &mut table,
            &mut asked,
            &mut answers,
        );
    }
}
