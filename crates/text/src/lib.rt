// Numbers, fields and lines as bytes, read and written, with nothing of pools in it.
#![tactic(auto)]

ghost use Rattle.std.specs.Prelude.{◌≡◌, ℕ, List, [], ◌∷◌, ◌++◌, ◌+◌, ◌<◌, ◌≤◌, ◌==◌, length, take, drop, position, option_map};
ghost use Rattle.text.specs.Numbers.{last_two, value_of, value_from, decimal_of};
ghost use Rattle.text.specs.Fields.{field_at, numbers_of, fields_of, line_of, Wrote};
ghost use Rattle.text.specs.Lines.{run};

use std::marker::Model;

// ---- numbers

// The number that a whole field spells: decimal, no leading zero, at most 4294967295.
#[tactic(auto, unfolding(crate::specs::Numbers::value_of))]
pub fn read_number(s: &[u8]) -> Option<u32>
    ensures { result ≡ value_of s.now }
{
    if s.is_empty() {
        return None;
    }
    if s[0] == b'0' {
        return if s.len() == 1 { Some(0) } else { None };
    }
    read_digits(s)
}

// The number that digits spell, leading zeros or none.
fn read_digits(s: &[u8]) -> Option<u32>
    ensures { result ≡ value_from 0 s.now }
{
    let mut value: u32 = 0;
    for b in s {
        if !b.is_ascii_digit() {
            return None;
        }
        value = value.checked_mul(10)?.checked_add(u32::from(*b - b'0'))?;
    }
    Some(value)
}

// Writes two digits, and answers the place after them.
fn put_two(out: &mut [u8], at: usize, n: u32) -> usize
    requires { at + 2 ≤ length out.old }
    ensures { Wrote out.old out.new at result (last_two n) }
{
    out[at] = b'0' + (n / 10 % 10) as u8;
    out[at + 1] = b'0' + (n % 10) as u8;
    at + 2
}

// Writes the digits of n at `at`, two by two, and answers the place after them.
fn put_number(out: &mut [u8], at: usize, n: u32) -> usize
    requires { at + length (decimal_of n) ≤ length out.old }
    ensures { Wrote out.old out.new at result (decimal_of n) }
{
    if n < 10 {
        out[at] = b'0' + n as u8;
        return at + 1;
    }
    if n < 100 {
        return put_two(out, at, n);
    }
    let end = put_number(out, at, n / 100);
    put_two(out, end, n)
}

// ---- fields

// The first place of a byte.
fn place_of(s: &[u8], b: u8) -> Option<usize>
    ensures { result ≡ position (λ x. x == b) s.now }
{
    s.iter().position(|x| *x == b)
}

// The next field, and what follows its tab; the last field is all that is left.
fn next_field(s: &[u8], last: bool) -> Option<(&[u8], &[u8])>
    ensures { option_map (λ f. (f.0.now, f.1.now)) result ≡ field_at last s.now }
{
    if last {
        return Some((s, &[]));
    }
    let tab = place_of(s, b'\t')?;
    Some((&s[..tab], &s[tab + 1..]))
}

// N numbers with tabs between.
pub fn read_numbers<const N: usize>(s: &[u8]) -> Option<[u32; N]>
    ensures { result ≡ numbers_of N s.now }
{
    let mut numbers = [0; N];
    let mut rest = s;
    for i in 0..N {
        let (field, after) = next_field(rest, i + 1 == N)?;
        numbers[i] = read_number(field)?;
        rest = after;
    }
    Some(numbers)
}

// ---- lines that are written

fn put_byte(out: &mut [u8], at: usize, b: u8) -> usize
    requires { at < length out.old }
    ensures { Wrote out.old out.new at result (b ∷ []) }
{
    out[at] = b;
    at + 1
}

// A tab and a number.
fn put_field(out: &mut [u8], at: usize, n: u32) -> usize
    requires { at + 1 + length (decimal_of n) ≤ length out.old }
    ensures { Wrote out.old out.new at result (9 ∷ decimal_of n) }
{
    let end = put_byte(out, at, b'\t');
    put_number(out, end, n)
}

// The numbers, each after a tab.
fn put_fields(out: &mut [u8], at: usize, ns: &[u32]) -> usize
    requires { at + length (fields_of ns.now) ≤ length out.old }
    ensures { Wrote out.old out.new at result (fields_of ns.now) }
{
    let mut end = at;
    for n in ns {
        end = put_field(out, end, *n);
    }
    end
}

// A letter, the numbers, a line feed: the place after them.
pub fn put_line(out: &mut [u8], at: usize, letter: u8, ns: &[u32]) -> usize
    requires { at + length (line_of letter ns.now) ≤ length out.old }
    ensures { Wrote out.old out.new at result (line_of letter ns.now) }
{
    let a = put_byte(out, at, letter);
    let b = put_fields(out, a, ns);
    put_byte(out, b, b'\n')
}

// Bytes as they are.
pub fn put_bytes(out: &mut [u8], at: usize, bs: &[u8]) -> usize
    requires { at + length bs.now ≤ length out.old }
    ensures { Wrote out.old out.new at result bs.now }
{
    let end = at + bs.len();
    out[at..end].copy_from_slice(bs);
    end
}

// ---- lines that are read

// An unfinished line: of one that is over-long the first 65 bytes. Clauses see the bytes that are kept.
#[derive(Drop)]
pub struct Line {
    bytes: [u8; 65],
    kept: usize,
}

impl Model for Line {
    ghost Value = { List ℕ };

    ghost view = { λ l. take l.kept l.bytes };

    ghost invariant = { λ l. l.kept ≤ 65 };
}

impl Line {
    // A line of these bytes.
    pub fn of(s: &[u8]) -> Line
        requires { length s.now ≤ 65 }
        ensures { result ≡ s.now }
    {
        let mut bytes = [0; 65];
        let kept = s.len();
        bytes[..kept].copy_from_slice(s);
        Line { bytes, kept }
    }

    pub fn bytes(&self) -> &[u8]
        ensures { (result.now ≡ self.now) × (length self.now ≤ 65) }
    {
        &self.bytes[..self.kept]
    }

    // Keeps the first n bytes alone.
    pub fn truncate(&mut self, n: usize)
        requires { n ≤ length self.old }
        ensures { self.new ≡ take n self.old }
    {
        self.kept = n;
    }

    // Keeps bytes as far as there is room.
    fn keep(&mut self, bs: &[u8])
        ensures { (self.new ≡ take 65 (self.old ++ bs.now)) × (length self.old ≤ 65) }
    {
        let n = 65usize.saturating_sub(self.kept).min(bs.len());
        let end = self.kept + n;
        self.bytes[self.kept..end].copy_from_slice(&bs[..n]);
        self.kept = end;
    }

    // Keeps the bytes as far as the first line feed: how many there are before it. The bytes kept before stay.
    pub fn keep_run(&mut self, chunk: &[u8]) -> usize
        ensures kept { (take (length self.old) self.new ≡ self.old) × (result ≤ length chunk.now) }
        ensures chunk_after { record { kept = self.new; rest = drop result chunk.now } ≡ run self.old chunk.now }
    {
        let n = place_of(chunk, b'\n').unwrap_or(chunk.len());
        self.keep(&chunk[..n]);
        n
    }
}
