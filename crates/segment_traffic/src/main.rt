// Random traffic of several parties on the segment pool, held to a plain ledger whose units are words. Each holder
// writes its ticket into all its words, and they and the control word are read again before its release. A round ends
// with the release of all; the memory must then be as a format leaves it.
#![tactic(auto)]

use calls::Answer;
use ledger::Row;
use segment_check::Head;
use std::io;
use std::ops::Range;
use testing::traffic::{self, EMPTY, Engine, Start};

// A round's segments, words of arena, records of table, the number that requested words stay below, first ticket, and
// calls.
type Size = (u32, usize, usize, u64, u32, u32);

// In the fourth round the tickets run out.
const ROUNDS: [Size; 14] = [
    (1, 2, 1, 3, 1, 200),
    (256, 2, 1, 3, 1, 200),
    (4, 16, 4, 7, 1, 3000),
    (16, 16, 4, 7, 4294967100, 3000),
    (1, 24, 8, 9, 1, 3000),
    (8, 61, 256, 3, 1, 3000),
    (64, 64, 30, 6, 1, 3000),
    (256, 100, 40, 8, 1, 3000),
    (32, 601, 16, 60, 1, 4000),
    (1, 1030, 256, 4, 1, 4000),
    (256, 1030, 256, 4, 1, 4000),
    (128, 4096, 100, 90, 1, 4000),
    (2, 16383, 256, 130, 1, 4000),
    (256, 16384, 256, 130, 1, 4000),
];

#[derive(Drop)]
struct Pool<'a> {
    head: Head,
    segments: u32,
    arena: &'a mut [i32],
    table: &'a mut [u32],
    index: &'a mut [u32],
}

// What a holder writes into its words: its ticket, reduced below 2^31.
fn mark_of(ticket: u32) -> i32 {
    (ticket % 2147483648) as i32
}

// Word i of the index of a pool with no record: the words above the first leaf, and it, are w, the other tree words 0;
// the first segment's first block is at 0, the others have none.
fn fresh_word(i: usize, segments: u32, w: usize) -> usize {
    let firsts = segments as usize % 257 * 2;
    if i < firsts {
        return if i.count_ones() == 1 { w } else { 0 };
    }
    if i == firsts { 0 } else { w }
}

impl Pool<'_> {
    // The words of a block, behind its control word.
    fn places(&self, held: Row) -> Range<usize> {
        let from = held.address as usize;
        from..from.wrapping_add(held.words as usize)
    }

    // Whether the block's control word is a held one's: its words and itself, below 0.
    fn is_held(&self, held: Row) -> bool {
        let size = i64::from(held.words) + 1;
        self.arena
            .get(self.unit_of(held.address))
            .is_some_and(|control| i64::from(*control) == -size)
    }

    // Whether the index is as a format leaves it.
    fn is_fresh_index(&self) -> bool {
        let w = self.arena.len();
        self.index
            .iter()
            .enumerate()
            .all(|(i, x)| *x as usize == fresh_word(i, self.segments, w))
    }

    // Whether the memory is as a format leaves it.
    fn is_fresh(&self) -> bool {
        let n = mark_of((self.arena.len() % 65536) as u32);
        self.arena.first() == Some(&n)
            && self.arena.iter().skip(1).all(|w| *w == 0)
            && self.table.iter().all(|w| *w == 0)
            && self.is_fresh_index()
    }
}

impl Engine for Pool<'_> {
    fn allocate(&mut self, party: u32, words: u32) -> Answer {
        let done = segment_pool::allocate(
            self.head,
            self.segments,
            self.arena,
            self.table,
            self.index,
            party,
            words,
        );
        self.head = done.head;
        done.answer
    }

    fn release(&mut self, named: Row) -> Answer {
        let done = segment_pool::release(
            self.head,
            self.segments,
            self.arena,
            self.table,
            self.index,
            named,
        );
        self.head = done.head;
        done.answer
    }

    fn find(&self, named: Row) -> Answer {
        segment_pool::find(
            self.head,
            self.segments,
            self.arena,
            self.table,
            self.index,
            named,
        )
    }

    fn is_at(&self, next: u32) -> bool {
        self.head.next == next
    }

    fn limit(&self) -> u32 {
        16384
    }

    // The words of a block: its control word and those asked for.
    fn span(&self, words: u32) -> usize {
        words as usize + 1
    }

    fn unit_of(&self, address: u32) -> usize {
        (address as usize).wrapping_sub(1)
    }

    fn address_of(&self, unit: usize) -> u32 {
        (unit % 65536 + 1) as u32
    }

    // The address of its control word, and a word more.
    fn near(&self, row: Row) -> Row {
        Row {
            address: row.address.wrapping_sub(1),
            words: row.words.wrapping_add(1),
            ..row
        }
    }

    fn hold(&mut self, granted: Row) -> bool {
        let held = self.is_held(granted);
        let places = self.places(granted);
        let Some(part) = self.arena.get_mut(places) else {
            return false;
        };
        let clear = part.iter().all(|w| *w == 0);
        part.fill(mark_of(granted.ticket));
        held && clear
    }

    fn is_intact(&self, held: Row) -> bool {
        let mark = mark_of(held.ticket);
        self.is_held(held)
            && self
                .arena
                .get(self.places(held))
                .is_some_and(|part| part.iter().all(|w| *w == mark))
    }
}

// A round on the first words of arena, table and index, and its line.
fn play(
    rt: &impl Print,
    size: Size,
    arena: &mut [i32],
    table: &mut [u32],
    index: &mut [u32],
    book: &mut [Row],
    map: &mut [bool],
) -> io::Result<()> {
    let (segments, words, records, most, next, count) = size;
    let w = words.min(arena.len());
    let t = (records % 257 * 4).min(table.len());
    let i = (segments as usize % 257 * 3).min(index.len());
    let m = words.min(map.len());
    let slots = records.min(book.len());
    let arena = &mut arena[..w];
    let table = &mut table[..t];
    let index = &mut index[..i];
    let formatted = segment_pool::format(segments, arena, table, index, next);
    let mut pool = Pool {
        head: formatted.head,
        segments,
        arena,
        table,
        index,
    };
    let start = Start {
        formatted: formatted.answer,
        next,
        most,
        count,
    };
    let tally = traffic::play(&mut pool, &mut book[..slots], &mut map[..m], start);
    let fresh = if pool.is_fresh() {
        "fresh"
    } else {
        "not fresh"
    };
    println!(rt;
        "{words} words, {segments} segments, {records} records: {tally}, {fresh} at the end"
    )
}

// A line that can't be printed is passed over.
fn main(rt: HostRuntime) {
    let mut arena = [0; 16384];
    let mut table = [0; 1024];
    let mut index = [0; 768];
    let mut book = [EMPTY; 256];
    let mut map = [false; 16384];
    for size in ROUNDS {
        let _ = play(
            &rt, size, &mut arena, &mut table, &mut index, &mut book, &mut map,
        );
    }
}
