// Random traffic on the tree pool, held to a plain ledger of cells of two words, or of four in form 2. In form 3 requests
// take them by fours.
// Each holder writes its ticket into all words of its cells, and they are read again before its release. A round ends
// with the release of all; the memory must then be as a format leaves it. Several parties share the pool.
#![tactic(auto)]

ghost use Rattle.std.specs.Prelude.{◌≤◌};

use calls::Answer;
use ledger::Row;
use std::io;
use std::ops::Range;
use testing::Form;
use testing::traffic::{self, EMPTY, Engine, Start};
use tree_check::Head;

// A round's form, words of arena, records of table, the number that requested words stay below, first ticket, and calls.
type Size = (Form, usize, usize, u64, u32, u32);

// Eight rounds of each form. In the third the tickets run out; the last of form 2 has links above 65,535.
const ROUNDS: [Size; 24] = [
    (Form::One, 2, 1, 4, 1, 200),
    (Form::One, 24, 4, 9, 1, 3000),
    (Form::One, 24, 4, 9, 4294967100, 3000),
    (Form::One, 64, 256, 3, 1, 3000),
    (Form::One, 600, 16, 60, 65536, 4000),
    (Form::One, 1030, 256, 4, 1, 4000),
    (Form::One, 4096, 100, 120, 2147483647, 4000),
    (Form::One, 16384, 256, 300, 1, 4000),
    (Form::Two, 4, 1, 8, 1, 200),
    (Form::Two, 48, 4, 17, 1, 3000),
    (Form::Two, 48, 4, 17, 4294967100, 3000),
    (Form::Two, 128, 256, 6, 1, 3000),
    (Form::Two, 1200, 16, 120, 65536, 4000),
    (Form::Two, 2060, 256, 8, 1, 4000),
    (Form::Two, 16388, 100, 500, 2147483647, 4000),
    (Form::Two, 300000, 256, 3000, 1, 600),
    (Form::Three, 8, 1, 16, 1, 200),
    (Form::Three, 96, 4, 35, 1, 3000),
    (Form::Three, 96, 4, 35, 4294967100, 3000),
    (Form::Three, 256, 256, 12, 1, 3000),
    (Form::Three, 2400, 16, 240, 65536, 4000),
    (Form::Three, 4120, 256, 16, 1, 4000),
    (Form::Three, 8192, 100, 240, 2147483647, 4000),
    (Form::Three, 16384, 256, 300, 1, 4000),
];

// A pool, and the form that its head has to keep.
#[derive(Drop)]
struct Pool<'a> {
    head: Head,
    form: Form,
    arena: &'a mut [u32],
    table: &'a mut [u32],
}

// The words of a cell.
fn cell_of(form: Form) -> u32
    ensures { (2 ≤ result) × (result ≤ 4) }
{
    match form {
        Form::Two => 4,
        _ => 2,
    }
}

impl Pool<'_> {
    // The words of a block, spare ones too.
    fn places(&self, held: Row) -> Range<usize> {
        let from = held.address as usize;
        let cells = self.span(held.words) % 1048576;
        from..from.wrapping_add(cells * cell_of(self.form) as usize)
    }

    // Whether the memory is as a format leaves it.
    fn is_fresh(&self) -> bool {
        let cells = self.arena.len() / cell_of(self.form) as usize;
        let first = self.arena.first().is_some_and(|w| *w as usize == cells);
        first
            && self.arena.iter().skip(1).all(|w| *w == 0)
            && self.table.iter().all(|w| *w == 0)
            && self.head.root == 1
    }
}

impl Engine for Pool<'_> {
    fn allocate(&mut self, party: u32, words: u32) -> Answer {
        let done = tree_pool::allocate(self.head, self.arena, self.table, party, words);
        self.head = done.head;
        done.answer
    }

    fn release(&mut self, named: Row) -> Answer {
        let done = tree_pool::release(self.head, self.arena, self.table, named);
        self.head = done.head;
        done.answer
    }

    fn find(&self, named: Row) -> Answer {
        tree_pool::find(self.head, self.arena, self.table, named)
    }

    fn is_at(&self, next: u32) -> bool {
        self.head.next == next && self.head.form == self.form.number()
    }

    fn limit(&self) -> u32 {
        match self.form {
            Form::Two => 1048576,
            _ => 16384,
        }
    }

    // Cells: the words rounded up.
    fn span(&self, words: u32) -> usize {
        let n = words as usize;
        match self.form {
            Form::One => n.div_ceil(2),
            Form::Two => n.div_ceil(4),
            Form::Three => n.div_ceil(8) * 4,
        }
    }

    fn unit_of(&self, address: u32) -> usize {
        (address / cell_of(self.form)) as usize
    }

    fn address_of(&self, unit: usize) -> u32 {
        (unit % 1048576) as u32 * cell_of(self.form)
    }

    // The address of the next cell, and a word less.
    fn near(&self, row: Row) -> Row {
        Row {
            address: row.address.wrapping_add(cell_of(self.form)),
            words: row.words.wrapping_sub(1),
            ..row
        }
    }

    fn hold(&mut self, granted: Row) -> bool {
        let places = self.places(granted);
        let Some(part) = self.arena.get_mut(places) else {
            return false;
        };
        let clear = part.iter().all(|w| *w == 0);
        part.fill(granted.ticket);
        clear
    }

    fn is_intact(&self, held: Row) -> bool {
        self.arena
            .get(self.places(held))
            .is_some_and(|part| part.iter().all(|w| *w == held.ticket))
    }
}

// A round on the first words of arena and table, and its line.
fn play(
    rt: &impl Print,
    size: Size,
    arena: &mut [u32],
    table: &mut [u32],
    book: &mut [Row],
    map: &mut [bool],
) -> io::Result<()> {
    let (form, words, records, most, next, count) = size;
    let w = words.min(arena.len());
    let t = (records % 257 * 4).min(table.len());
    let m = (words / cell_of(form) as usize).min(map.len());
    let slots = records.min(book.len());
    let arena = &mut arena[..w];
    let table = &mut table[..t];
    let formatted = tree_pool::format(form.number(), arena, table, next);
    let mut pool = Pool {
        head: formatted.head,
        form,
        arena,
        table,
    };
    let start = Start {
        formatted: formatted.answer,
        next,
        most,
        count,
    };
    let tally = traffic::play(&mut pool, &mut book[..slots], &mut map[..m], start);
    let fresh = if pool.is_fresh() {
        "fresh"
    } else {
        "not fresh"
    };
    let number = form.number();
    println!(rt; "form {number}, {words} words, {records} records: {tally}, {fresh} at the end")
}

// A line that can't be printed is passed over.
fn main(rt: HostRuntime) {
    let mut arena = [0; 300000];
    let mut table = [0; 1024];
    let mut book = [EMPTY; 256];
    let mut map = [false; 75000];
    for size in ROUNDS {
        let _ = play(&rt, size, &mut arena, &mut table, &mut book, &mut map);
    }
}
