// Scans of the segment pool from block to block, and the upkeep of the index after a change of the blocks: only the
// segments whose control words changed are scanned again, each from its first block.
#![tactic(auto)]

ghost use Rattle.std.specs.Prelude.{◌≡◌, true, ℕ, ◌+◌, ◌-◌, ◌*◌, ◌≤◌, ◌<◌, ◌^◌, ℤ, length};
ghost use Rattle.stored_forms.specs.Segments.{largest};
ghost use Rattle.segment_index.specs.Index.{index_of};
ghost use Rattle.segment_blocks.specs.Blocks.{Scan, Seeking, FirstFit, Chain, EndsAt, Reaches};
ghost use Rattle.segment_blocks.specs.Upkeep.{OneBlock, Ready, Refreshed, RefreshedIf, Touched, first_from};

use segment_index::{Segments, index_word, raise, raise_most, segment_of, size_at, weight_at};
use stored_forms::Steps;
use words::fill_part;

// The first free block of n words or more from `from` on, and how many blocks were looked at. There is one: the leaf
// of the segment says so.
pub fn first_fit(v: &[i32], from: usize, n: u32) -> Steps
    requires { (c : ℕ → ℤ) × Seeking v.now c from n }
    ensures { (c : ℕ → ℤ) → Seeking v.now c from n → FirstFit c from n result.at result.places }
{
    let mut at = from;
    let mut passed: usize = 0;
    while weight_at(v, at) < n {
        at += size_at(v, at);
        passed += 1;
    }
    let places = passed + 1;
    Steps { at, places }
}

// The block that ends where p begins, from an earlier block on.
pub fn block_before(v: &[i32], from: usize, p: usize) -> usize
    requires { (c : ℕ → ℤ) × Chain v.now c from p }
    ensures { (c : ℕ → ℤ) → Chain v.now c from p → EndsAt c p result }
{
    let mut at = from;
    let mut next = from + size_at(v, from);
    while next < p {
        at = next;
        next = at + size_at(v, at);
    }
    at
}

// What a sweep over blocks answers: the largest weight, and where the first block past them begins.
#[derive(Clone, Copy)]
pub struct Swept {
    pub most: u32,
    pub next: usize,
}

// The blocks that begin from `from`, where one does, up to hi. The next one begins at or past hi; it is the arena's
// end where there is none.
fn sweep(v: &[i32], from: usize, hi: usize) -> Swept
    requires { (c : ℕ → ℤ) × Scan v.now c from × (hi ≤ length v.now) }
    ensures { (c : ℕ → ℤ) → Scan v.now c from
        → (result.most ≡ largest c from (hi - from)) × Reaches v.now c from hi result.next }
{
    let mut most: u32 = 0;
    let mut at = from;
    while at < hi {
        most = most.max(weight_at(v, at));
        at += size_at(v, at);
    }
    Swept { most, next: at }
}

// The leaf of a segment: the largest weight of the blocks that begin from `from` up to hi.
fn leaf_from(v: &[i32], from: usize, hi: usize) -> u32
    requires { (c : ℕ → ℤ) × Scan v.now c from × (hi ≤ length v.now) }
    ensures { (c : ℕ → ℤ) → Scan v.now c from → result ≡ largest c from (hi - from) }
{
    let swept = sweep(v, from, hi);
    swept.most
}

// The first-block word of a segment that ends at hi: w where no block begins before that.
fn first_from(from: usize, hi: usize, w: usize) -> u32
    requires { (from < 2 ^ 32) × (w < 2 ^ 32) }
    ensures { result ≡ first_from from hi w }
{
    if from < hi { from as u32 } else { w as u32 }
}

// Segment k is brought up to date, with the words above its leaf.
fn refresh_segment(v: &[i32], t: &mut [u32], segments: Segments, k: usize, from: usize)
    requires { (c : ℕ → ℤ) × Ready v.now c t.old segments.count segments.size k from }
    ensures { (c : ℕ → ℤ) → Ready v.now c t.old segments.count segments.size k from
        → Refreshed c (length v.now) segments.count k t.old t.new }
{
    let s = segments.count;
    let g = segments.size;
    let w = v.len();
    let hi = ((k + 1) * g).min(w);
    let leaf = leaf_from(v, from, hi);
    let first = first_from(from, hi, w);
    raise(t, s, s + k, leaf);
    t[2 * s + k] = first;
}

// The same where `on` says so.
fn refresh_if(on: bool, v: &[i32], t: &mut [u32], segments: Segments, k: usize, from: usize)
    requires { on ≡ true → (c : ℕ → ℤ) × Ready v.now c t.old segments.count segments.size k from }
    ensures { (c : ℕ → ℤ) → (on ≡ true → Ready v.now c t.old segments.count segments.size k from)
        → RefreshedIf on c (length v.now) segments.count k t.old t.new }
{
    if !on {
        return;
    }
    refresh_segment(v, t, segments, k, from);
}

// The index follows a release or a trim, which changes the weights of at most three control words: at a and p, and at e
// if the y words there were free. The merged block begins at a, and no other before `end`. A segment that holds two of
// them is scanned once; that of a from its first block, which may be the one at a.
pub fn reindex(
    v: &[i32],
    t: &mut [u32],
    segments: Segments,
    a: usize,
    p: usize,
    e: usize,
    end: usize,
    y: usize,
)
    requires { (b : ℕ → ℤ) × (c : ℕ → ℤ)
        × Touched b c v.now t.old segments.count segments.size a p e end y }
    ensures { (b : ℕ → ℤ) → (c : ℕ → ℤ)
        → Touched b c v.now t.old segments.count segments.size a p e end y
        → t.new ≡ index_of c (length v.now) segments.count }
{
    let s = segments.count;
    let g = segments.size;
    let ka = segment_of(a, g);
    let kp = segment_of(p, g);
    let ke = segment_of(e, g);
    let from = index_word(t, 2 * s + ka).min(a);
    refresh_segment(v, t, segments, ka, from);
    refresh_if(kp != ka, v, t, segments, kp, end);
    refresh_if((0 < y) & ((ke != ka) & (ke != kp)), v, t, segments, ke, end);
}

// The same after a grant, with less to ask: it changes only the control word at p and, where y words of the free run
// are left, the one at e. p's segment is scanned, and e's from e on if it is another one.
pub fn reindex_grant(v: &[i32], t: &mut [u32], segments: Segments, p: usize, e: usize, y: usize)
    requires { (b : ℕ → ℤ) × (c : ℕ → ℤ)
        × Touched b c v.now t.old segments.count segments.size p p e e y }
    ensures { (b : ℕ → ℤ) → (c : ℕ → ℤ)
        → Touched b c v.now t.old segments.count segments.size p p e e y
        → t.new ≡ index_of c (length v.now) segments.count }
{
    let s = segments.count;
    let g = segments.size;
    let kp = segment_of(p, g);
    let from = index_word(t, 2 * s + kp).min(p);
    refresh_segment(v, t, segments, kp, from);
    let ke = segment_of(e, g);
    refresh_if((0 < y) & (ke != kp), v, t, segments, ke, e);
}

// The index of an arena that is one free block: what format writes.
pub fn build_index(v: &[i32], t: &mut [u32], segments: Segments)
    requires by_index { (c : ℕ → ℤ) × OneBlock v.now c segments.count segments.size }
    requires t_len { length t.old ≡ 3 * segments.count }
    ensures { (c : ℕ → ℤ) → OneBlock v.now c segments.count segments.size
        → t.new ≡ index_of c (length v.now) segments.count }
{
    let s = segments.count;
    let w = v.len();
    fill_part(t, 0, 2 * s, 0);
    fill_part(t, 2 * s, 3 * s, w as u32);
    raise_most(t, s, s, w as u32);
    t[2 * s] = 0;
}
