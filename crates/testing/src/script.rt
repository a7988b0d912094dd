// A script's lines: each is a command, known by its first two letters, with its numbers; '#' starts a comment.
#![tactic(auto)]

ghost use Rattle.std.specs.Prelude.{◌≡◌, get_or, ltb, if◌then◌else◌};
ghost use Rattle.ledger.specs.Records.{row};

use crate::printing::Word;
use ledger::Row;
use std::io;
use std::io::Write;

// A line's numbers in order; past the first 256 they are only counted, and are 0.
#[derive(Drop)]
pub struct Given {
    pub words: [u32; 256],
    pub count: usize,
}

// The number that these bytes spell: other bytes than digits are passed over, each minus sign negates.
fn number_of(bytes: &[u8]) -> u32 {
    let mut x = 0u32;
    let mut negative = false;
    for b in bytes {
        match b {
            b'-' => negative = !negative,
            b'0'..=b'9' => x = x.wrapping_mul(10).wrapping_add(u32::from(*b - b'0')),
            _ => {}
        }
    }
    if negative { x.wrapping_neg() } else { x }
}

impl Given {
    // The numbers of a line: each part of it up to a number's last digit spells one.
    fn of(line: &[u8]) -> Given {
        let mut given = Given {
            words: [0; 256],
            count: 0,
        };
        for part in line.chunk_by(|a, b| !a.is_ascii_digit() || b.is_ascii_digit()) {
            if part.last().is_some_and(|b| b.is_ascii_digit()) {
                given.push(number_of(part));
            }
        }
        given
    }

    fn push(&mut self, x: u32) {
        if self.count < 256 {
            self.words[self.count] = x;
        }
        self.count = self.count.wrapping_add(1);
    }

    // Number i, or 0 if there are not so many.
    pub fn word(&self, i: usize) -> u32
        ensures { result ≡ get_or self.now.words i 0 }
    {
        self.words.get(i).copied().unwrap_or(0)
    }

    // Number i, or 1 if the line has not so many.
    pub fn word_or_one(&self, i: usize) -> u32
        ensures { result ≡ (if ltb i self.now.count then get_or self.now.words i 0 else 1) }
    {
        if i < self.count { self.word(i) } else { 1 }
    }

    // The row whose three words are given, as this party names it.
    pub fn row(&self, party: u32) -> Row
        ensures { result ≡ row (get_or self.now.words 0 0) (get_or self.now.words 1 0) (get_or self.now.words 2 0) party }
    {
        Row {
            ticket: self.word(0),
            address: self.word(1),
            words: self.word(2),
            party,
        }
    }

    // Writes the numbers from the second on, to the places from the first one's value on.
    pub fn write<T: Word>(&self, s: &mut [T]) {
        let from = self.word(0) as usize;
        if let Some(part) = s.get_mut(from..) {
            for (place, i) in part.iter_mut().zip(1..self.count) {
                *place = T::of_bits(self.word(i));
            }
        }
    }

    // Which of the numbers stands at place i of a list: from the third on, over and over.
    fn repeated(&self, i: usize) -> u32 {
        if self.count <= 2 {
            return 0;
        }
        self.word((i % (self.count - 2)).wrapping_add(2))
    }

    pub fn write_list(&self, s: &mut [u32]) {
        for (i, place) in s.iter_mut().enumerate() {
            *place = self.repeated(i);
        }
    }
}

// Prints a line and reads its numbers, with their signs, up to its comment. A line that can't be printed is read as well.
pub fn read_line(rt: &impl Print, line: &[u8]) -> Given {
    let _ = io::writer(rt).write_all(line);
    let _ = println!(rt);
    let code = line.split(|b| *b == b'#').next().unwrap_or(line);
    Given::of(code)
}
