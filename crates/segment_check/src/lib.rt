// The check of the segment pool: blocks that lie side by side from the first word to the last, and an index that is
// theirs. No unit is marked: the map has a bit for each word, set only where a record's block begins.
// Slices are lent on as `&*slice`, which keeps pointer and length in registers (docs/DECISIONS.md, what crosses calls).
#![tactic(auto)]

ghost use Rattle.std.specs.Prelude.{◌≡◌, true, ◌||◌, ℕ, ℤ, ◌+◌, ◌-◌, ◌*◌, ◌≤◌, ◌<◌, eqb, pos, length, get_or, IfSome, IsSome, IsSomeAnd};
ghost use Rattle.words.specs.Lists.{all, is_zero};
ghost use Rattle.words.specs.Counted.{every};
ghost use Rattle.words.specs.Flags.{Says};
ghost use Rattle.ledger.specs.Records.{slots};
ghost use Rattle.segment_index.specs.Control.{free_size};
ghost use Rattle.segment_blocks.specs.Upkeep.{Sizes};
ghost use Rattle.calls.specs.Pool.{lengths, stored};
ghost use Rattle.calls.specs.Step.{GateIs};
ghost use Rattle.calls.specs.Refusals.{number_in};
ghost use Rattle.calls.specs.Engines.{segment_engine};
ghost use Rattle.segment_check.specs.Gate.{segment_pool, RightLengths, Ranged};
ghost use Rattle.segment_check.specs.Right.{Measured, node_right, tree_right};
ghost use Rattle.record_table.specs.Partition.{Noted};
ghost use Rattle.segment_check.specs.BitMaps.{bit_at};
ghost use Rattle.segment_blocks.specs.Blocks.{Scan};
ghost use Rattle.segment_check.specs.Adjoining.{Adjoining, HeldBlock, FreeBlock, Walked, Matched, Kept, Led};
ghost use Rattle.segment_check.specs.Adjoining.{WalksAll, Heads, Sets, Good, Joined, Headed, Shown};

use calls::Refusal;
use ledger::Rule;
use record_table::{read_row, slot_count};
use segment_index::{Segments, free_at, is_held, is_segments, segments_of, size_at};
use words::is_zero_part;

// A unit of the segment pool is one word, and a block has one before its address: the control word.
pub const WORDS: Rule = Rule { unit: 1, lead: 1 };

// What a call of the segment pool is passed and hands back: the next ticket, 0 when none is left.
#[derive(Clone, Copy)]
pub struct Head {
    pub next: u32,
}

// ---- the map, 64 words of the arena to an entry

// Whether bit k is set.
fn has_bit(map: &[u64], k: usize) -> bool
    requires { k < 64 * length map.now }
    ensures { result ≡ bit_at map.now k }
{
    (map[k / 64] >> (k % 64)) % 2 == 1
}

// Sets bit k.
fn put_bit(map: &mut [u64], k: usize)
    requires { k < 64 * length map.old }
    ensures { (j : ℕ) → bit_at map.new j ≡ (eqb j k || bit_at map.old j) }
{
    let i = k / 64;
    let w = map[i];
    map[i] = w | (1 << (k % 64));
}

// ---- the blocks, from the first word on

// The size of the held block that begins at a word; none if the map says that none does, or it has no word or ends
// outside.
fn held_size(v: &[i32], map: &[u64], at: usize) -> Option<usize>
    requires { (at < length v.now) × (length v.now ≤ 64 * length map.now) }
    ensures held { IfSome result (λ n. (0 < n) × HeldBlock v.now map.now at n) }
    ensures none { (k : ℕ) → 0 < k → HeldBlock v.now map.now at k → IsSome result }
{
    let n = size_at(v, at);
    if n == 0 {
        return None;
    }
    if v.len() - at < n {
        return None;
    }
    if has_bit(map, at) { Some(n) } else { None }
}

// Whether the n words that a control word says are free are a free block of a sound pool: inside, and zero behind the
// control word. `after` says whether the block before is free; two free ones don't touch.
fn is_free_block(v: &[i32], at: usize, n: usize, after: bool) -> bool
    requires { (at < length v.now) × (0 < n) × (n ≡ free_size (get_or v.now at (pos 0))) }
    ensures { Says result (FreeBlock v.now at after n) }
{
    if after | (v.len() - at < n) {
        return false;
    }
    is_zero_part(v, at + 1, at + n)
}

// Where a walk over blocks has led: the next one begins at `next`, so many words are free up to there, `after` says
// whether the last block is, and `most` is the largest weight.
#[derive(Clone, Copy)]
struct Walk {
    next: usize,
    free: usize,
    after: bool,
    most: u32,
}

// Walks the blocks that begin from `from` up to hi, behind others that have led to `from`; None if one is wrong. A held
// block weighs 1.
fn walk_blocks(
    v: &[i32],
    map: &[u64],
    from: usize,
    hi: usize,
    free: usize,
    after: bool,
) -> Option<Walk>
    requires { (length v.now ≤ 16384) × (length v.now ≤ 64 * length map.now) × (hi ≤ length v.now)
        × (from ≤ length v.now) × (free ≤ from) × Adjoining v.now map.now from free after }
    ensures walked { IfSome result (λ walk. (walk.next ≤ length v.now)
        × Walked v.now map.now from hi walk.next walk.free walk.after walk.most) }
    ensures walks { (c : ℕ → ℤ) → (sum : ℕ → ℕ) → Kept v.now map.now c sum → Scan v.now c from
        → Led c sum from free after → IsSomeAnd result (λ walk. Led c sum walk.next walk.free walk.after) }
{
    let mut at = from;
    let mut sum = free;
    let mut last = after;
    let mut most: u32 = 0;
    while at < hi {
        let f = free_at(v, at);
        if f == 0 {
            let n = held_size(v, map, at)?;
            most = most.max(1);
            last = false;
            at += n;
        } else {
            if !is_free_block(v, at, f, last) {
                return None;
            }
            most = most.max(f as u32);
            sum += f;
            last = true;
            at += f;
        }
    }
    Some(Walk {
        next: at,
        free: sum,
        after: last,
        most,
    })
}

// The words of the free blocks together; None if blocks don't lie side by side up to the last word, or two free ones do,
// or the index has another leaf or first block for a segment. One pass does both, since each block that is passed costs a
// wait for its control word.
fn walk_segments(v: &[i32], map: &[u64], t: &[u32], segments: Segments) -> Option<usize>
    requires { Sizes (length v.now) segments.count segments.size × (length t.now ≡ 3 * segments.count)
        × (length v.now ≤ 64 * length map.now) }
    ensures matched { IfSome result (λ free. (free ≤ length v.now)
        × Matched v.now map.now t.now segments.count segments.size free) }
    ensures walks { WalksAll v.now map.now t.now segments.count segments.size result }
{
    let s = segments.count;
    let g = segments.size;
    let w = v.len();
    let mut at: usize = 0;
    let mut free: usize = 0;
    let mut after = false;
    for k in 0..s {
        let hi = ((k + 1) * g).min(w);
        let first = t[2 * s + k] as usize;
        if at < hi {
            let walk = walk_blocks(&*v, &*map, at, hi, free, after)?;
            if (first != at) | (t[s + k] != walk.most) {
                return None;
            }
            at = walk.next;
            free = walk.free;
            after = walk.after;
        } else {
            if (first != w) | (t[s + k] != 0) {
                return None;
            }
        }
    }
    Some(free)
}

// ---- the index above the segments

fn node_right(t: &[u32], i: usize) -> bool
    requires { (0 < i) × (2 * i + 1 < length t.now) }
    ensures { result ≡ node_right t.now i }
{
    t[i] == t[2 * i].max(t[2 * i + 1])
}

fn nodes_right(t: &[u32], s: usize) -> bool
    requires { (0 < s) × (2 * s ≤ length t.now) }
    ensures { result ≡ every (node_right t.now) 1 (s - 1) }
{
    let mut ok = true;
    for i in 1..s {
        ok = ok & node_right(t, i);
    }
    ok
}

// The words above the segments': word 0, and each inner one.
fn tree_right(t: &[u32], s: usize) -> bool
    requires { (0 < s) × (2 * s ≤ length t.now) }
    ensures { result ≡ tree_right t.now s }
{
    (t[0] == 0) & nodes_right(t, s)
}

// ---- the records, from the first slot on

// The words of slot i's block, whose first word is set in the map; None if the record may not follow those before it, or
// its control word is another.
fn map_row(
    v: &[i32],
    next: u32,
    table: &[u32],
    i: usize,
    map: &mut [u64],
    seen: &mut [u8],
) -> Option<usize>
    requires { (length v.now ≤ 16384) × (length v.now ≤ 64 * length map.old) × (i < slots table.now)
        × (0 < length seen.old) × Noted (length seen.old) seen.old table.now i
        × Heads v.now table.now map.old i × Sets table.now map.old i }
    ensures joined { IfSome result (λ u. (u ≤ length v.now)
        × Joined v.now next table.now map.new seen.new (length seen.old) i u) }
    ensures good { Good v.now next table.now i → IsSome result }
{
    let r = read_row(table, i);
    let u = record_table::enter_row(WORDS, v.len(), next, table, i, r, &mut *seen)?;
    if u == 0 {
        return Some(0);
    }
    let at = r.address as usize - 1;
    if !is_held(v, at, u) {
        return None;
    }
    put_bit(&mut *map, at);
    Some(u)
}

// The words of all blocks together, whose first words are set in a map that is all zero; None if a record is wrong.
fn map_rows(v: &[i32], next: u32, table: &[u32], map: &mut [u64], seen: &mut [u8]) -> Option<usize>
    requires { (length v.now ≤ 16384) × (length v.now ≤ 64 * length map.old) × (0 < length seen.old)
        × (all is_zero map.old ≡ true) × (slots table.now ≤ 256) }
    ensures headed { IfSome result (λ held. (held ≤ 16384 * slots table.now)
        × Headed v.now next table.now map.new seen.new (length seen.old) (slots table.now) held) }
    ensures good { ((i : ℕ) → i < slots table.now → Good v.now next table.now i) → IsSome result }
{
    let mut held: usize = 0;
    for i in 0..slot_count(&*table) {
        held += map_row(&*v, next, &*table, i, &mut *map, &mut *seen)?;
    }
    Some(held)
}

// ---- the test

// The test by a map that comes in all zero and the residues of tickets.
fn is_shown_over(
    next: u32,
    arena: &[i32],
    table: &[u32],
    index: &[u32],
    segments: Segments,
    map: &mut [u64],
    seen: &mut [u8],
) -> bool
    requires measured { Measured arena.now table.now index.now segments.count segments.size }
    requires arena_len_bound { (length arena.now ≤ 64 * length map.old) × (all is_zero map.old ≡ true)
        × (0 < length seen.old) }
    ensures { Says result
        (Shown next arena.now table.now index.now segments.count) }
{
    let Some(held) = map_rows(&*arena, next, &*table, &mut *map, &mut *seen) else {
        return false;
    };
    if arena.len() < held {
        return false;
    }
    let Some(free) = walk_segments(&*arena, &*map, &*index, segments) else {
        return false;
    };
    if free + held != arena.len() {
        return false;
    }
    tree_right(&*index, segments.count)
}

// The same by a map of MAP entries and SEEN residues. Both are wiped whole on every call, so that a small pool gets a
// small map, and few slots get few residues.
fn is_shown_in<const MAP: usize, const SEEN: usize>(
    next: u32,
    arena: &[i32],
    table: &[u32],
    index: &[u32],
    segments: Segments,
) -> bool
    requires measured { Measured arena.now table.now index.now segments.count segments.size }
    requires sizes { (length arena.now ≤ 64 * MAP) × (0 < SEEN) × (MAP ≤ 256) × (SEEN ≤ 2048) }
    ensures { Says result
        (Shown next arena.now table.now index.now segments.count) }
{
    let mut map: [u64; MAP] = [0; MAP];
    let mut seen: [u8; SEEN] = [0; SEEN];
    is_shown_over(
        next, &*arena, &*table, &*index, segments, &mut map, &mut seen,
    )
}

// Whether the table holds a valid ledger, and arena and index are its stored form.
fn is_shown(next: u32, arena: &[i32], table: &[u32], index: &[u32], segments: Segments) -> bool
    requires { Measured arena.now table.now index.now segments.count segments.size }
    ensures { Says result
        (Shown next arena.now table.now index.now segments.count) }
{
    let few = slot_count(&*table) <= 16;
    if arena.len() <= 128 {
        if few {
            return is_shown_in::<2, 128>(next, &*arena, &*table, &*index, segments);
        }
        return is_shown_in::<2, 2048>(next, &*arena, &*table, &*index, segments);
    }
    if arena.len() <= 2048 {
        if few {
            return is_shown_in::<32, 128>(next, &*arena, &*table, &*index, segments);
        }
        return is_shown_in::<32, 2048>(next, &*arena, &*table, &*index, segments);
    }
    if few {
        return is_shown_in::<256, 128>(next, &*arena, &*table, &*index, segments);
    }
    is_shown_in::<256, 2048>(next, &*arena, &*table, &*index, segments)
}

// ---- the tests before every call

pub fn right_lengths(s: u32, arena: &[i32], table: &[u32], index: &[u32]) -> bool
    ensures { RightLengths s arena.now table.now index.now result }
{
    let w = arena.len();
    let slots = slot_count(table);
    let one = is_segments(s);
    (2 <= w)
        & (w <= 16384)
        & one
        & (table.len() % 4 == 0)
        & (1 <= slots)
        & (slots <= 256)
        & (index.len() == 3 * (s as usize))
}

// What the type says of every word of the arena, as a fact for proofs: it is known where a word is read.
pub fn ranged(arena: &[i32])
    ensures { Ranged arena.now }
{
    for word in arena {
        let _read = *word;
    }
}

// Whether head and lent memory are the stored form of a ledger.
fn is_stored(s: u32, head: Head, arena: &[i32], table: &[u32], index: &[u32]) -> bool
    requires { lengths segment_engine (segment_pool s head arena.now table.now index.now) ≡ true }
    ensures { result
        ≡ stored segment_engine (segment_pool s head arena.now table.now index.now) }
{
    ranged(arena);
    let segments = segments_of(s, arena.len());
    is_shown(head.next, &*arena, &*table, &*index, segments)
}

// The tests that stand before every call: refused by number 8 or 1, or a sound pool.
pub fn gate(s: u32, head: Head, arena: &[i32], table: &[u32], index: &[u32]) -> Result<(), Refusal>
    ensures { GateIs segment_engine
        (segment_pool s head arena.now table.now index.now) (number_in result) }
{
    if !right_lengths(s, &*arena, &*table, &*index) {
        return Err(Refusal::BadLengths);
    }
    if !is_stored(s, head, &*arena, &*table, &*index) {
        return Err(Refusal::Damaged);
    }
    Ok(())
}
