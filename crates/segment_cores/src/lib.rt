// The segment pool's search, grant, release and trim on a sound pool: the index leads to the blocks, and follows their
// change.
// Slices are lent to the upkeep as `&*v` and `&mut *t`, which keeps them in registers (docs/DECISIONS.md, what crosses
// calls).
#![tactic(auto)]

ghost use Rattle.std.specs.Prelude.{◌≡◌, ℕ, ◌+◌, ◌-◌, ◌*◌, ◌≤◌, ◌<◌, ◌^◌, ℤ, pos, length};
ghost use Rattle.words.specs.Places.{wiped};
ghost use Rattle.ledger.specs.Records.{Ledger};
ghost use Rattle.ledger.specs.Units.{free, lowest_fit};
ghost use Rattle.stored_forms.specs.Segments.{segment_rule, most_words};
ghost use Rattle.stored_forms.specs.Search.{steps_to};
ghost use Rattle.segment_blocks.specs.Upkeep.{Sizes};
ghost use Rattle.segment_cores.specs.Stores.{Unheld, Granting, Releasing, Trimming, Becomes};
ghost use Rattle.segment_cores.specs.Stores.{put_rest, past_old, merged};
ghost use Rattle.segment_cores.specs.Cores.{Searching, LaterBlock, Begun, HeldAt, Beneath, rest_at};

use segment_blocks::{block_before, build_index, first_fit, reindex, reindex_grant};
use segment_index::{
    Segments, descend, free_at, index_word, last_before, put_free, put_held, segment_of, size_at,
};
use stored_forms::Steps;
use words::{fill, fill_part};

// The lowest word from which n words are free, or the arena's length: the root, a descent, and the scan of one
// segment. The places looked at are counted: the root, a word at each level, and the blocks scanned.
pub fn search(v: &[i32], t: &[u32], segments: Segments, n: u32) -> Steps
    requires { (L : Ledger) × Searching L v.now t.now segments.count segments.log n }
    ensures { (L : Ledger) → Searching L v.now t.now segments.count segments.log n
        → result
        ≡ steps_to segments.count (length v.now) L
        (lowest_fit (free segment_rule L) (length v.now) n) }
{
    let s = segments.count;
    let d = segments.log;
    if t[1] < n {
        return Steps {
            at: v.len(),
            places: 1,
        };
    }
    let k = descend(t, d, n) - s;
    let from = index_word(t, 2 * s + k);
    let fit = first_fit(v, from, n);
    let places = 1 + d as usize + fit.places;
    Steps { at: fit.at, places }
}

// What is left of a run above a grant: a free block of y words, none where y is 0.
fn put_rest(v: &mut [i32], at: usize, y: usize)
    requires { (0 < y → at < length v.old) × (y < 2 ^ 31) }
    ensures { v.new ≡ put_rest v.old at y }
{
    if y == 0 {
        return;
    }
    put_free(v, at, y);
}

// The block at p, of n words, is granted from the free run that begins there. Its words are zero already.
pub fn allot(v: &mut [i32], t: &mut [u32], segments: Segments, p: usize, n: usize)
    requires { (L : Ledger) × (M : Ledger) × Granting L M v.old t.old segments.count segments.size p n }
    ensures { (L : Ledger) → (M : Ledger)
        → Granting L M v.old t.old segments.count segments.size p n
        → Becomes M (wiped (pos 0) (p + 1) (p + n) v.old) segments.count v.new t.new }
{
    let y = size_at(v, p) - n;
    put_rest(v, p + n, y);
    put_held(v, p, n);
    reindex_grant(&*v, &mut *t, segments, p, p + n, y);
}

// The free words from a place on at which a block begins, or the arena ends.
fn free_above(v: &[i32], at: usize) -> usize
    ensures { result ≡ rest_at v.now at }
{
    if at >= v.len() {
        return 0;
    }
    free_at(v, at)
}

// A block that begins below p: the first of p's segment, or of the last segment before it in which a block begins.
fn begun_before(t: &[u32], segments: Segments, p: usize) -> usize
    requires { (c : ℕ → ℤ) × (W : ℕ) × LaterBlock c W t.now segments.count segments.log segments.size p }
    ensures { (c : ℕ → ℤ) → (W : ℕ) → LaterBlock c W t.now segments.count segments.log segments.size p
        → Begun c p result }
{
    let s = segments.count;
    let d = segments.log;
    let g = segments.size;
    let k = segment_of(p, g);
    let from = index_word(t, 2 * s + k);
    if from < p {
        return from;
    }
    let j = last_before(t, d, s + k) - s;
    index_word(t, 2 * s + j)
}

// The free words right below the block at p; below word 0 there are none.
fn free_below(v: &[i32], t: &[u32], segments: Segments, p: usize) -> usize
    requires { (L : Ledger) × HeldAt L v.now t.now segments.count segments.log segments.size p }
    ensures { (L : Ledger)
        → HeldAt L v.now t.now segments.count segments.log segments.size p
        → Beneath (free segment_rule L) p result }
{
    if p == 0 {
        return 0;
    }
    let from = begun_before(t, segments, p);
    let q = block_before(v, from, p);
    free_at(v, q)
}

// The end of what a release wipes: where a free block lies above, its control word too.
fn past_old(e: usize, y: usize) -> usize
    requires { e < 2 ^ 63 }
    ensures { result ≡ past_old e y }
{
    if 0 < y { e + 1 } else { e }
}

// The block at p, of n words, becomes one free block with the x free words below it and the y above.
fn merge(v: &mut [i32], p: usize, n: usize, x: usize, y: usize)
    requires { (0 < n) × (x ≤ p) × (p + n + y ≤ length v.old) × (length v.old ≤ most_words) }
    ensures { v.new ≡ merged v.old p n x y }
{
    let e = past_old(p + n, y);
    fill_part(v, p, e, 0);
    put_free(v, p - x, x + n + y);
}

// The block at p, of n words, is released, and coalesced with the free blocks beside it.
pub fn release(v: &mut [i32], t: &mut [u32], segments: Segments, p: usize, n: usize)
    requires { (L : Ledger) × (M : Ledger)
        × Releasing L M v.old t.old segments.count segments.log segments.size p n }
    ensures { (L : Ledger) → (M : Ledger)
        → Releasing L M v.old t.old segments.count segments.log segments.size p n
        → Becomes M v.old segments.count v.new t.new }
{
    let x = free_below(v, t, segments, p);
    let y = free_above(v, p + n);
    merge(v, p, n, x, y);
    reindex(&*v, &mut *t, segments, p - x, p, p + n, p + n + y, y);
}

// The block at p keeps its first m words. The k behind them are released, and coalesced with a free block above; none
// lies below them. The index takes the kept block for what it was, a held block that begins at p.
pub fn trim(v: &mut [i32], t: &mut [u32], segments: Segments, p: usize, m: usize, k: usize)
    requires { (L : Ledger) × (M : Ledger)
        × Trimming L M v.old t.old segments.count segments.size p m k }
    ensures { (L : Ledger) → (M : Ledger)
        → Trimming L M v.old t.old segments.count segments.size p m k
        → Becomes M v.old segments.count v.new t.new }
{
    let q = p + m;
    let e = q + k;
    let y = free_above(v, e);
    put_held(v, p, m);
    merge(v, q, k, 0, y);
    reindex(&*v, &mut *t, segments, q, q, e, e + y, y);
}

// One free block, and the index of it: the pool that format makes.
pub fn lay_out(v: &mut [i32], t: &mut [u32], segments: Segments)
    requires sizes { Sizes (length v.old) segments.count segments.size }
    requires t_len { length t.old ≡ 3 * segments.count }
    ensures { (L : Ledger) → Unheld L (length v.old)
        → Becomes L v.old segments.count v.new t.new }
{
    let w = v.len();
    fill(v, 0);
    put_free(v, 0, w);
    build_index(v, t, segments);
}
