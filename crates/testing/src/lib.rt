// What the test programs share: reading, scripts, printing, and in `traffic` a plain ledger with random calls.
#![tactic(auto)]

ghost use Rattle.std.specs.Prelude.{◌≡◌, ◌<◌, ◌^◌, take};
ghost use Rattle.std.specs.Io.KnownBytes.{Consumes};
ghost use Rattle.io.specs.Counts.{IsPrefixLen};
ghost use Rattle.testing.specs.Forms.{form_number};

pub mod printing;
pub mod script;
pub mod traffic;

use std::io::Read;

// ---- reading

// What the input gives, at the start of `out`: how many bytes. It ends with the input, at a read that fails, or where
// `out` is full. It takes no heap, where a refused allocation would cut the input off like its end.
pub fn read_full<R: Read>(input: &mut R, out: &mut [u8]) -> usize
    ensures bound { IsPrefixLen result out.new }
    ensures bytes { Consumes (R.remaining input.old) (R.remaining input.new) (take result out.new) }
{
    let mut n = 0;
    while n < out.len() {
        let Ok(got) = input.read(&mut out[n..]) else {
            break;
        };
        if got == 0 {
            break;
        }
        n += got;
    }
    n
}

// ---- random numbers

pub fn stirred(seed: u64) -> u64
    ensures { result < 2147483648 }
{
    ((seed % 2147483648) * 1103515245 + 12345) % 2147483648
}

// A number below n, or 0 where n is 0.
pub fn pick(seed: u64, n: u64) -> u32 {
    if n == 0 {
        return 0;
    }
    ((seed / 1024) % n % 4294967296) as u32
}

// ---- forms

// A form of the tree pool.
#[derive(Clone, Copy, PartialEq, Eq)]
pub enum Form {
    One = 1,
    Two,
    Three,
}

impl Form {
    // The number that a pool is told.
    pub fn number(self) -> u32
        ensures { result ≡ form_number self }
    {
        self as u32
    }

    // The words of its unit.
    pub fn unit(self) -> u32
        ensures { result ≡ 2 ^ form_number self }
    {
        match self {
            Form::One => 2,
            Form::Two => 4,
            Form::Three => 8,
        }
    }
}
