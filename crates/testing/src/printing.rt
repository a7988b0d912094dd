// What the test programs print: memories, answers, and what a script's line came to.
#![tactic(auto)]

ghost use Rattle.std.specs.Prelude.{◌<◌};

use calls::Answer;
use std::fmt;

// What memories consist of: words of 32 bits with a sign or without, or bytes.
pub trait Word: Copy + PartialEq + fmt::Display {
    // The one with these lowest bits.
    fn of_bits(bits: u32) -> Self;

    // One step of the checksum: it depends on the words' values and on their order.
    fn mixed(self, sum: u64) -> u64
        requires { sum < 4294967291 }
        ensures { result < 4294967291 };
}

impl Word for u32 {
    fn of_bits(bits: u32) -> u32 {
        bits
    }

    fn mixed(self, sum: u64) -> u64 {
        (sum * 65599 + u64::from(self) + 1) % 4294967291
    }
}

impl Word for i32 {
    fn of_bits(bits: u32) -> i32 {
        bits.cast_signed()
    }

    // Its sign, 1 below 0, then its magnitude.
    fn mixed(self, sum: u64) -> u64 {
        let signed = u32::from(self < 0).mixed(sum);
        self.unsigned_abs().mixed(signed)
    }
}

impl Word for u8 {
    fn of_bits(bits: u32) -> u8 {
        (bits % 256) as u8
    }

    fn mixed(self, sum: u64) -> u64 {
        u32::from(self).mixed(sum)
    }
}

// The checksum of the words, below the prime 4,294,967,291.
fn checksum<T: Word>(s: &[T]) -> u64
    ensures { result < 4294967291 }
{
    let mut sum = 0;
    for x in s {
        sum = x.mixed(sum);
    }
    sum
}

// All words of a short slice; of a long one the length and the checksum.
#[derive(Clone, Copy)]
pub struct Shown<'a, T>(pub &'a [T]);

impl<T: Word> fmt::Display for Shown<'_, T> {
    fn fmt<W: fmt::Write>(&self, f: &mut fmt::Formatter<W>) -> fmt::Result {
        if self.0.len() > 64 {
            let sum = checksum(self.0);
            return write!(f, " length {} sum {sum}", self.0.len());
        }
        for x in self.0 {
            write!(f, " {x}")?;
        }
        Ok(())
    }
}

// What a call answered.
#[derive(Clone, Copy)]
pub struct Told(pub Answer);

impl fmt::Display for Told {
    fn fmt<W: fmt::Write>(&self, f: &mut fmt::Formatter<W>) -> fmt::Result {
        let answer = self.0;
        write!(
            f,
            "  answer {} {} {} {}",
            answer.number, answer.ticket, answer.address, answer.words
        )
    }
}
