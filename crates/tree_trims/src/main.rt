// Trims on a tree pool of each form, every word shown. A block of three units, or of a word less, is cut to every number
// of words, where its tail lies before a held block, before a free run, and at the arena's end; then come the numbers
// that the names from before the trim and those after it are told.
#![tactic(auto)]

use calls::Answer;
use ledger::Row;
use std::io;
use testing::Form;
use testing::printing::{Shown, Told};
use tree_check::Head;
use tree_requests::Outcome;

// Where the tail lies.
#[derive(Clone, Copy, PartialEq, Eq)]
enum Place {
    BeforeHeld,
    BeforeFree,
    AtTheEnd,
}

// What is cut: the pool's form, where the block's tail lies, and how many words it has.
#[derive(Clone, Copy)]
struct Case {
    form: Form,
    place: Place,
    words: u32,
}

// A pool in the memory lent to it.
#[derive(Drop)]
struct Pool<'a> {
    head: Head,
    arena: &'a mut [u32],
    table: &'a mut [u32],
}

impl Pool<'_> {
    // The outcome's head is the pool's from here on.
    fn told(&mut self, outcome: Outcome) -> Answer {
        self.head = outcome.head;
        outcome.answer
    }

    fn allocate(&mut self, words: u32) -> Row {
        let outcome = tree_pool::allocate(self.head, self.arena, self.table, 1, words);
        let answer = self.told(outcome);
        Row {
            ticket: answer.ticket,
            address: answer.address,
            words: answer.words,
            party: 1,
        }
    }

    fn release(&mut self, named: Row) -> Answer {
        let outcome = tree_pool::release(self.head, self.arena, self.table, named);
        self.told(outcome)
    }

    fn trim(&mut self, named: Row, keep: u32) -> Answer {
        let outcome = tree_pool::trim(self.head, self.arena, self.table, named, keep);
        self.told(outcome)
    }

    fn show(&self, rt: &impl Print) -> io::Result<()> {
        println!(rt; "  head {} {}", self.head.root, self.head.next)?;
        println!(rt; "  arena{}", Shown(self.arena))?;
        println!(rt; "  table{}", Shown(self.table))
    }

    // Takes two blocks of a new pool, or one, as no words are refused: the one that is to be cut. All words of its units
    // are written, spare words too.
    fn take(&mut self, case: Case) -> Row {
        let unit = case.form.unit();
        let named = match case.place {
            Place::BeforeHeld => {
                let first = self.allocate(case.words);
                self.allocate(unit);
                first
            }
            Place::BeforeFree => {
                let first = self.allocate(case.words);
                self.allocate(0);
                first
            }
            Place::AtTheEnd => {
                self.allocate(5 * unit);
                self.allocate(case.words)
            }
        };
        let from = named.address as usize;
        let past = from.wrapping_add(3 * unit as usize);
        if let Some(block) = self.arena.get_mut(from..past) {
            block.fill(1001);
        }
        named
    }

    // What the names from before, where fewer words were kept, and those after the trim are told: trims of what is kept
    // to nothing and to a word more, to all of it and to one word.
    fn try_names(&mut self, rt: &impl Print, named: Row, keep: u32) -> io::Result<()> {
        if keep != named.words {
            print!(rt; " {}", self.release(named).number)?;
            print!(rt; " {}", self.trim(named, 1).number)?;
        }
        let kept = Row {
            words: keep,
            ..named
        };
        for n in [0, keep.wrapping_add(1), keep, 1] {
            print!(rt; " {}", self.trim(kept, n).number)?;
        }
        Ok(())
    }
}

// A case, on eight units: the block is cut to `keep` words.
fn run_case(
    rt: &impl Print,
    case: Case,
    keep: u32,
    arena: &mut [u32],
    table: &mut [u32],
) -> io::Result<()> {
    let form = case.form.number();
    println!(rt; "form {form} {} {} {keep}", case.place as u32, case.words)?;
    let n = (8 * case.form.unit() as usize).min(arena.len());
    let arena = &mut arena[..n];
    let made = tree_pool::format(form, arena, table, 1);
    let mut pool = Pool {
        head: made.head,
        arena,
        table,
    };
    let named = pool.take(case);
    println!(rt; "{}", Told(pool.trim(named, keep)))?;
    pool.show(rt)?;
    print!(rt; "  then")?;
    pool.try_names(rt, named, keep)?;
    println!(rt)?;
    pool.show(rt)
}

// Every number of words to keep, from all of them down to one. A case that can't be printed is passed over.
fn run_keeps(rt: &impl Print, case: Case, arena: &mut [u32], table: &mut [u32]) {
    for keep in (1..=case.words).rev() {
        let _ = run_case(rt, case, keep, arena, table);
    }
}

fn run_places(rt: &impl Print, form: Form, words: u32, arena: &mut [u32], table: &mut [u32]) {
    for place in [Place::BeforeHeld, Place::BeforeFree, Place::AtTheEnd] {
        run_keeps(rt, Case { form, place, words }, arena, table);
    }
}

fn main(rt: HostRuntime) {
    let mut arena = [0; 64];
    let mut table = [0; 12];
    for form in [Form::One, Form::Two, Form::Three] {
        let words = 3 * form.unit();
        run_places(&rt, form, words, &mut arena, &mut table);
        run_places(&rt, form, words - 1, &mut arena, &mut table);
    }
}
