// The free tree of a tree pool: the free blocks in a lent arena, each with its node in its first cell (01, "Stored
// form of the tree pool"). How a node lies in words is left to tree_nodes: no function here reads or writes a word.
#![tactic(auto)]

ghost use Rattle.std.specs.Prelude.{◌≡◌, ◌≢◌, ℕ, ◌+◌, ◌-◌, ◌≤◌, ◌<◌};
ghost use Rattle.ledger.specs.Runs.{run};
ghost use Rattle.stored_forms.specs.Tree.{Tree, form_of, length_at};
ghost use Rattle.tree_nodes.specs.Nodes.{count_base, cells};
ghost use Rattle.free_tree.specs.Shapes.{stands_above, begins_at};
ghost use Rattle.free_tree.specs.Links.{link_of, count_of};
ghost use Rattle.free_tree.specs.Held.{At, Beside, LeftWins, RightWins, LeftJoined, RightJoined, BothJoined};
ghost use Rattle.free_tree.specs.Held.{Parts, Room, PutOver, Inserted, Deleted, OverRoot, Heavier, OverRoots};
ghost use Rattle.free_tree.specs.Held.{OnTop, Between};
ghost use Rattle.free_tree.specs.Readings.{run_of, top_number, PlacedBy};
ghost use Rattle.free_tree.specs.Held.{Heapified, Longer, Shrunk, LeftmostFound, Placed, NodeOf, Attached, Clear, TouchFound};
ghost use Rattle.free_tree.specs.Held.{if_ends, if_begins};

use tree_nodes::{
    left_of, length_of, put_first, right_of, set_left, set_right, store_left, store_right,
};

// ---- join

// Joins the trees at the links `a` and `b`, where the root of `a` stays on top.
#[cycle(over_left_over_right)]
fn over_left(form: u32, arena: &mut [u32], a: usize, b: usize)
    requires { (ta : Tree) × (tb : Tree) × LeftWins (form_of form) arena.old a b ta tb }
    ensures { LeftJoined (form_of form) arena.old arena.new a b }
{
    let c = a - 1;
    let s = right_of(form, arena, c);
    if s == 0 {
        set_right(form, arena, c, b);
        return;
    }
    if length_of(form, arena, b - 1) <= length_of(form, arena, s - 1) {
        over_left(form, arena, s, b);
    } else {
        over_right(form, arena, s, b);
        set_right(form, arena, c, b);
    }
}

// Joins the trees at the links `a` and `b`, where the root of `b` stays on top.
#[cycle(over_left_over_right)]
fn over_right(form: u32, arena: &mut [u32], a: usize, b: usize)
    requires { (ta : Tree) × (tb : Tree) × RightWins (form_of form) arena.old a b ta tb }
    ensures { RightJoined (form_of form) arena.old arena.new a b }
{
    let c = b - 1;
    let s = left_of(form, arena, c);
    if s == 0 {
        set_left(form, arena, c, a);
        return;
    }
    if length_of(form, arena, s - 1) <= length_of(form, arena, a - 1) {
        over_left(form, arena, a, s);
        set_left(form, arena, c, a);
    } else {
        over_right(form, arena, a, s);
    }
}

// Joins the trees at the links `a` and `b`, of which either may be 0, and returns the link to the whole.
fn join_trees(form: u32, arena: &mut [u32], a: usize, b: usize) -> usize
    requires { (ta : Tree) × (tb : Tree) × Beside (form_of form) arena.old a b ta tb }
    ensures { BothJoined (form_of form) arena.old arena.new a b result }
{
    if a == 0 {
        return b;
    }
    if b == 0 {
        return a;
    }
    if length_of(form, arena, b - 1) <= length_of(form, arena, a - 1) {
        over_left(form, arena, a, b);
        a
    } else {
        over_right(form, arena, a, b);
        b
    }
}

// ---- a link and a count of stored links in one number: it comes back in a register, where a struct would come back
// through memory

fn with_count(l: usize, stored: u64) -> u64
    requires { (l < count_base) × (stored < count_base) }
    ensures { (link_of result ≡ l) × (count_of result ≡ stored) }
{
    l as u64 + 4294967296 * stored
}

pub fn link_of(k: u64) -> usize
    ensures { result ≡ link_of k }
{
    (k % 4294967296) as usize
}

pub fn count_of(k: u64) -> u64
    ensures { result ≡ count_of k }
{
    k / 4294967296
}

// ---- split

// Splits the tree at the link `l`, whose root is below cell `x`, into its blocks below `x` and those from it on. The
// root stays that of the lower part. Returns the link to the upper part, and how many links were stored: as long as the
// right son is below `x` too, its link stays, and the loop goes on to it. Neither of the two functions calls itself:
// compiled, it would keep the slice in memory.
#[cycle(lower_part_upper_part)]
fn upper_part(form: u32, arena: &mut [u32], l: usize, x: usize) -> u64
    requires { (l ≢ 0) × (l - 1 < x) × ((t : Tree) × At (form_of form) arena.old l t) }
    ensures { Parts (form_of form) arena.old arena.new l x l (link_of result) (count_of result) }
{
    let mut c = l - 1;
    let mut s = right_of(form, arena, c);
    while (s != 0) & (s <= x) {
        c = s - 1;
        s = right_of(form, arena, c);
    }
    if s == 0 {
        return 0;
    }
    let p = lower_part(form, arena, s, x);
    let stored = store_right(form, arena, c, link_of(p), count_of(p));
    with_count(s, stored)
}

// The same where the root is not below `x` and stays that of the upper part. Returns the link to the lower part, and
// how many links were stored: as long as the left son is not below `x` either, its link stays.
#[cycle(lower_part_upper_part)]
fn lower_part(form: u32, arena: &mut [u32], l: usize, x: usize) -> u64
    requires { (l ≢ 0) × (x ≤ l - 1) × ((t : Tree) × At (form_of form) arena.old l t) }
    ensures { Parts (form_of form) arena.old arena.new l x (link_of result) l (count_of result) }
{
    let mut c = l - 1;
    let mut s = left_of(form, arena, c);
    while x < s {
        c = s - 1;
        s = left_of(form, arena, c);
    }
    if s == 0 {
        return 0;
    }
    let p = upper_part(form, arena, s, x);
    let stored = store_left(form, arena, c, link_of(p), count_of(p));
    with_count(s, stored)
}

// ---- the place of a change

// A block: its first cell, and how many cells it has.
#[derive(Clone, Copy)]
struct Block {
    start: usize,
    size: u32,
}

// Where a search ends: the link to what lies there, 0 for none, and the link to its father, 0 for none.
#[derive(Clone, Copy)]
pub struct Place {
    pub at: usize,
    pub over: usize,
}

// Whether the block stands above another.
fn stands_above(block: Block, other: Block) -> bool
    ensures { result ≡ stands_above (run_of block) (run_of other) }
{
    (other.size < block.size) | ((other.size == block.size) & (block.start < other.start))
}

// From the link `l` down by the address of cell `x`, to the first node at whose cell `stops` holds.
fn seek<F: Fn(usize) -> bool>(form: u32, arena: &[u32], l: usize, x: usize, stops: F) -> Place
    requires tree { (t : Tree) × At (form_of form) arena.now l t }
    requires callable { (c : ℕ) → c < cells (form_of form) arena.now → F.pre stops c }
    ensures { PlacedBy (form_of form) arena.now l (F.post stops) x result.at result.over }
{
    let mut at = l;
    let mut over: usize = 0;
    while at != 0 {
        let c = at - 1;
        if stops(c) {
            return Place { at, over };
        }
        over = at;
        if x < c {
            at = left_of(form, arena, c);
        } else {
            at = right_of(form, arena, c);
        }
    }
    Place { at, over }
}

// The place of the block: the first node that it stands above.
fn place_for(form: u32, arena: &[u32], l: usize, block: Block) -> Place
    requires { (t : Tree) × At (form_of form) arena.now l t }
    ensures { Placed (form_of form) arena.now l (stands_above (run_of block)) block.start result.at result.over }
{
    seek(form, arena, l, block.start, |c| {
        let size = length_of(form, arena, c);
        stands_above(block, Block { start: c, size })
    })
}

// The place of the node at cell `x`. No length is read.
fn place_of(form: u32, arena: &[u32], l: usize, x: usize) -> Place
    requires { (t : Tree) × At (form_of form) arena.now l t }
    ensures { Placed (form_of form) arena.now l (begins_at x) x result.at result.over }
{
    seek(form, arena, l, x, |c| c == x)
}

// Attaches the tree at the link `q` to the node at the link `over`, on the side where cell `x` is. Returns the link to
// the whole, which is `root`, or `q` where there is no such node; and one more than `stored`, for the link that is set
// or the root link. The nodes above keep their links, so none is written.
fn attach(
    form: u32,
    arena: &mut [u32],
    root: usize,
    over: usize,
    x: usize,
    q: usize,
    stored: u64,
) -> u64
    requires over_bound { over ≤ cells (form_of form) arena.old }
    requires q_bound { (q < (form_of form).links) × (root < (form_of form).links) × (stored + 1 < count_base) }
    ensures attached { Attached (form_of form) arena.old arena.new root over x q (link_of result) }
    ensures result_value { count_of result ≡ stored + 1 }
{
    if over == 0 {
        return with_count(q, stored + 1);
    }
    let c = over - 1;
    if c <= x {
        let count = store_right(form, arena, c, q, stored);
        return with_count(root, count);
    }
    let count = store_left(form, arena, c, q, stored);
    with_count(root, count)
}

// ---- insert, delete

// Puts the block's node in place of the tree at the link `l`, whose parts become its sons. Returns how many links were
// stored.
fn put_over(form: u32, arena: &mut [u32], l: usize, block: Block) -> u64
    requires { (t : Tree) × Room (form_of form) arena.old l (run_of block) t }
    ensures { PutOver (form_of form) arena.old arena.new l (run_of block) result }
{
    let x = block.start;
    let n = block.size;
    if l == 0 {
        return put_first(form, arena, x, n, 0, 0);
    }
    if l - 1 < x {
        let p = upper_part(form, arena, l, x);
        return count_of(p) + put_first(form, arena, x, n, l, link_of(p));
    }
    let p = lower_part(form, arena, l, x);
    count_of(p) + put_first(form, arena, x, n, link_of(p), l)
}

// Inserts the block of `n` cells at cell `x`, whose words are zero already, into the tree at the link `l`. Returns the
// link to the whole, and how many links were stored, the root link among them. 02, ticket 4.
pub fn insert(form: u32, arena: &mut [u32], l: usize, x: usize, n: u32) -> u64
    requires { (t : Tree) × Room (form_of form) arena.old l (run x n) t }
    ensures { Inserted (form_of form) arena.old arena.new l (run x n) result }
{
    let block = Block { start: x, size: n };
    let Place { at, over } = place_for(form, arena, l, block);
    let stored = put_over(form, arena, at, block);
    attach(form, arena, l, over, x, x + 1, stored)
}

// Takes the block at the link `at` out of the tree at the link `l`, and returns the link to the rest. Its father is at
// the link `over`, 0 for none. The block's words stay as they are.
pub fn delete_at(form: u32, arena: &mut [u32], l: usize, at: usize, over: usize) -> usize
    requires at { (t : Tree) × At (form_of form) arena.old l t }
    requires node_of { NodeOf (form_of form) arena.old l at over }
    ensures { Deleted (form_of form) arena.old arena.new l (at - 1) result }
{
    let c = at - 1;
    let a = left_of(form, arena, c);
    let b = right_of(form, arena, c);
    let q = join_trees(form, arena, a, b);
    link_of(attach(form, arena, l, over, c, q, 0))
}

// The same for the block at cell `x`, whose place is searched. Most often it has one son at most, which is attached here:
// nothing is joined, and no call is made.
pub fn delete(form: u32, arena: &mut [u32], l: usize, x: usize) -> usize
    requires { (t : Tree) × At (form_of form) arena.old l t }
    ensures { Deleted (form_of form) arena.old arena.new l x result }
{
    let Place { at, over } = place_of(form, arena, l, x);
    if at == 0 {
        return l;
    }
    let c = at - 1;
    let a = left_of(form, arena, c);
    let b = right_of(form, arena, c);
    if (a == 0) | (b == 0) {
        return link_of(attach(form, arena, l, over, x, a + b, 0));
    }
    delete_at(form, arena, l, at, over)
}

// ---- shrink

// Whether the block stands above the root at the link `l`, or there is none.
fn over_root(form: u32, arena: &[u32], l: usize, block: Block) -> bool
    requires { (t : Tree) × At (form_of form) arena.now l t }
    ensures { OverRoot (form_of form) arena.now l (run_of block) result }
{
    if l == 0 {
        return true;
    }
    let start = l - 1;
    let size = length_of(form, arena, start);
    stands_above(block, Block { start, size })
}

// Whether the root at the link `a` stays above the one at the link `b`.
fn is_heavier(form: u32, arena: &[u32], a: usize, b: usize) -> bool
    requires { ((ta : Tree) × At (form_of form) arena.now a ta) × ((tb : Tree) × At (form_of form) arena.now b tb) }
    ensures { Heavier (form_of form) arena.now a b result }
{
    if a == 0 {
        return false;
    }
    if b == 0 {
        return true;
    }
    length_of(form, arena, b - 1) <= length_of(form, arena, a - 1)
}

// Whether the block stands above the roots at the links `lo` and `hi`.
fn over_roots(form: u32, arena: &[u32], lo: usize, hi: usize, block: Block) -> bool
    requires { ((ta : Tree) × At (form_of form) arena.now lo ta) × ((tb : Tree) × At (form_of form) arena.now hi tb) }
    ensures { OverRoots (form_of form) arena.now lo hi (run_of block) result }
{
    if over_root(form, arena, lo, block) {
        return over_root(form, arena, hi, block);
    }
    false
}

// Which stays on top where a block goes between two trees: the block, or the lower or the upper one's root.
#[derive(Clone, Copy)]
enum Top {
    Block,
    Low,
    High,
}

// Which stays on top where the block goes between the trees at the links `lo` and `hi`.
fn on_top(form: u32, arena: &[u32], lo: usize, hi: usize, block: Block) -> Top
    requires { ((ta : Tree) × At (form_of form) arena.now lo ta) × ((tb : Tree) × At (form_of form) arena.now hi tb) }
    ensures { OnTop (form_of form) arena.now lo hi (run_of block) (top_number result) }
{
    if over_roots(form, arena, lo, hi, block) {
        return Top::Block;
    }
    if is_heavier(form, arena, lo, hi) {
        return Top::Low;
    }
    Top::High
}

// Puts the block between the trees at the links `lo` and `hi`, where the root at `lo` stays on top: the block goes down
// its right side. As long as the right son stays on top too, its link stays, and the loop goes on to it. Neither of the
// two functions calls itself: compiled, it would keep the slice in memory.
#[cycle(sink_left_sink_right)]
fn sink_right(form: u32, arena: &mut [u32], lo: usize, hi: usize, block: Block)
    requires between { (ta : Tree) × (tb : Tree) × Between (form_of form) arena.old lo hi (run_of block) ta tb }
    requires on_top { OnTop (form_of form) arena.old lo hi (run_of block) 1 }
    ensures { Heapified (form_of form) arena.old arena.new lo hi (run_of block) lo }
{
    let mut c = lo - 1;
    let mut s = right_of(form, arena, c);
    loop {
        match on_top(form, arena, s, hi, block) {
            Top::Block => {
                put_first(form, arena, block.start, block.size, s, hi);
                set_right(form, arena, c, block.start + 1);
                return;
            }
            Top::Low => {
                c = s - 1;
                s = right_of(form, arena, c);
            }
            Top::High => {
                sink_left(form, arena, s, hi, block);
                set_right(form, arena, c, hi);
                return;
            }
        }
    }
}

// The same where the root at `hi` stays on top: the block goes down its left side.
#[cycle(sink_left_sink_right)]
fn sink_left(form: u32, arena: &mut [u32], lo: usize, hi: usize, block: Block)
    requires between { (ta : Tree) × (tb : Tree) × Between (form_of form) arena.old lo hi (run_of block) ta tb }
    requires on_top { OnTop (form_of form) arena.old lo hi (run_of block) 2 }
    ensures { Heapified (form_of form) arena.old arena.new lo hi (run_of block) hi }
{
    let mut c = hi - 1;
    let mut s = left_of(form, arena, c);
    loop {
        match on_top(form, arena, lo, s, block) {
            Top::Block => {
                put_first(form, arena, block.start, block.size, lo, s);
                set_left(form, arena, c, block.start + 1);
                return;
            }
            Top::Low => {
                sink_right(form, arena, lo, s, block);
                set_left(form, arena, c, lo);
                return;
            }
            Top::High => {
                c = s - 1;
                s = left_of(form, arena, c);
            }
        }
    }
}

// Puts the block between the trees at the links `lo` and `hi`, and returns the link to the whole. Most often it stands
// above both roots, and the trees are its sons as they are. Else the heavier root stays on top, and the block goes down
// its inner side; a link that stays is not written.
fn heapify(form: u32, arena: &mut [u32], lo: usize, hi: usize, block: Block) -> usize
    requires { (ta : Tree) × (tb : Tree) × Between (form_of form) arena.old lo hi (run_of block) ta tb }
    ensures { Heapified (form_of form) arena.old arena.new lo hi (run_of block) result }
{
    match on_top(form, arena, lo, hi, block) {
        Top::Block => {
            put_first(form, arena, block.start, block.size, lo, hi);
            block.start + 1
        }
        Top::Low => {
            sink_right(form, arena, lo, hi, block);
            lo
        }
        Top::High => {
            sink_left(form, arena, lo, hi, block);
            hi
        }
    }
}

// The block at the link `at`, of more than `k` cells, gives up its first `k` cells in the tree at the link `l`. Its
// father is at the link `over`, 0 for none. Returns the link to the whole. What is left of it can only sink below its
// sons: no block above it is shorter. The words of its first cell stay as they are.
pub fn shrink(form: u32, arena: &mut [u32], l: usize, at: usize, over: usize, k: usize) -> usize
    requires by_index { (t : Tree) × (n : ℕ) × Longer (form_of form) arena.old l (run (at - 1) n) k t }
    requires node_of { NodeOf (form_of form) arena.old l at over }
    ensures { Shrunk (form_of form) arena.old arena.new l (at - 1) k result }
{
    let c = at - 1;
    let a = left_of(form, arena, c);
    let b = right_of(form, arena, c);
    let n = length_of(form, arena, c) as usize;
    let rest = Block {
        start: c + k,
        size: (n - k) as u32,
    };
    let q = heapify(form, arena, a, b, rest);
    link_of(attach(form, arena, l, over, c, q, 0))
}

// ---- searches: they return links, 0 for none

// The first block of at least `cells` cells, and its father: as long as the root is long enough, go left.
pub fn leftmost_fit(form: u32, arena: &[u32], root: usize, cells: u32) -> Place
    requires { (t : Tree) × At (form_of form) arena.now root t }
    ensures leftmost_found { LeftmostFound (form_of form) arena.now root cells result.at }
    ensures node_of { result.at ≢ 0 → NodeOf (form_of form) arena.now root result.at result.over }
{
    let mut at: usize = 0;
    let mut over: usize = 0;
    let mut l = root;
    while l != 0 {
        let c = l - 1;
        if length_of(form, arena, c) < cells {
            return Place { at, over };
        }
        over = at;
        at = l;
        l = left_of(form, arena, c);
    }
    Place { at, over }
}

// The links to the blocks below and above some cells.
#[derive(Clone, Copy)]
pub struct Sides {
    pub lo: usize,
    pub hi: usize,
}

// The link itself if its block ends at cell `x`, else 0.
fn if_ends(form: u32, arena: &[u32], l: usize, x: usize) -> usize
    requires l_bound { l ≤ cells (form_of form) arena.now }
    requires l_bound_2 { l ≢ 0 → l - 1 + length_at (form_of form) arena.now (l - 1) < (form_of form).links }
    ensures { result ≡ if_ends (form_of form) arena.now x l }
{
    if l == 0 {
        return 0;
    }
    let c = l - 1;
    if c + length_of(form, arena, c) as usize == x {
        return l;
    }
    0
}

// The link itself if its block begins at cell `x`, else 0.
fn if_begins(l: usize, x: usize) -> usize
    requires { x < count_base }
    ensures { result ≡ if_begins x l }
{
    if l == x + 1 {
        return l;
    }
    0
}

// The blocks that touch the cells from `lo` up to `hi`, of which none is free: the one that ends at `lo`, and the one
// that begins at `hi`. If there are such blocks, one search by address passes both: they are the last
// that it leaves below and above.
pub fn touching(form: u32, arena: &[u32], root: usize, lo: usize, hi: usize) -> Sides
    requires hi_bound { hi ≤ cells (form_of form) arena.now }
    requires clear { (t : Tree) × Clear (form_of form) arena.now root lo hi t }
    ensures { TouchFound (form_of form) arena.now root lo hi result.lo result.hi }
{
    let mut below: usize = 0;
    let mut above: usize = 0;
    let mut l = root;
    while l != 0 {
        let c = l - 1;
        if lo < c {
            above = l;
            l = left_of(form, arena, c);
        } else {
            below = l;
            l = right_of(form, arena, c);
        }
    }
    Sides {
        lo: if_ends(form, arena, below, lo),
        hi: if_begins(above, hi),
    }
}
