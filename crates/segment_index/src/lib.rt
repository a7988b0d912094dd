// The segment pool's control words, the number of segments, and the tree of the index.
#![tactic(auto)]

ghost use Rattle.std.specs.Prelude.{◌≡◌, true, ℕ, ◌+◌, ◌*◌, ◌/◌, ◌^◌, ◌≤◌, ◌<◌, max, min, pos, neg_ℤ, nat_abs, length, get_or, set};
ghost use Rattle.stored_forms.specs.Segments.{weight, is_power, depth, most_words, segment_size};
ghost use Rattle.segment_index.specs.Control.{free_size};
ghost use Rattle.segment_index.specs.Index.{Divided};
ghost use Rattle.segment_index.specs.Tree.{Heap, LowestLeaf, Raised, LastIn};
ghost use Rattle.segment_index.specs.Climb.{Later, Above, Under};

// ---- control words: a word's magnitude is the size of its block, and its sign says whether the block is free
// (positive) or held (negative)

// The size of a block, of either sign; the smallest i32 has one too.
pub fn size_of(v: i32) -> u32
    ensures { result ≡ nat_abs v }
{
    v.unsigned_abs()
}

// What a control word counts for in a leaf of the index: a held block counts 1.
fn weight_of(v: i32) -> u32
    ensures { result ≡ weight v }
{
    if v < 0 { 1 } else { size_of(v) }
}

// The size of a free block; 0 for a held one, and where no block begins.
fn free_size(v: i32) -> u32
    ensures { result ≡ free_size v }
{
    if 0 < v { size_of(v) } else { 0 }
}

// The size of the block that begins at a word.
pub fn size_at(v: &[i32], at: usize) -> usize
    requires { at < length v.now }
    ensures { result ≡ nat_abs (get_or v.now at (pos 0)) }
{
    size_of(v[at]) as usize
}

pub fn weight_at(v: &[i32], at: usize) -> u32
    requires { at < length v.now }
    ensures { result ≡ weight (get_or v.now at (pos 0)) }
{
    weight_of(v[at])
}

// The size of the free block that begins at a word, 0 where none does.
pub fn free_at(v: &[i32], at: usize) -> usize
    requires { at < length v.now }
    ensures { result ≡ free_size (get_or v.now at (pos 0)) }
{
    free_size(v[at]) as usize
}

// A free block of n words begins here.
pub fn put_free(v: &mut [i32], at: usize, n: usize)
    requires { (at < length v.old) × (n < 2 ^ 31) }
    ensures { v.new ≡ set v.old at (pos n) }
{
    v[at] = n as i32;
}

// A held block of n words begins here: a free one's control word, negated.
pub fn put_held(v: &mut [i32], at: usize, n: usize)
    requires { (at < length v.old) × (n < 2 ^ 31) }
    ensures { v.new ≡ set v.old at (neg_ℤ (pos n)) }
{
    v[at] = -(n as i32);
}

// Whether a held block of n words begins here, by one comparison.
pub fn is_held(v: &[i32], at: usize, n: usize) -> bool
    requires { (at < length v.now) × (n < 2 ^ 31) }
    ensures pos_value { result ≡ true → get_or v.now at (pos 0) ≡ neg_ℤ (pos n) }
    ensures value { get_or v.now at (pos 0) ≡ neg_ℤ (pos n) → result ≡ true }
{
    v[at] == -(n as i32)
}

// Whether s is a number of segments: a power of two, 1 to 256.
pub fn is_segments(s: u32) -> bool
    ensures { result ≡ is_power s depth }
{
    if 256 < s {
        return false;
    }
    u32::count_ones(s) == 1
}

// Its logarithm: the depth of the segment tree.
fn depth_of(s: u32) -> u32
    requires { is_power s depth ≡ true }
    ensures { (s ≡ 2 ^ result) × (result ≤ depth) }
{
    u32::trailing_zeros(s)
}

// ---- the index: word i is the larger of words 2i and 2i + 1, and the leaves are words S to 2S - 1. Each walk goes up
// or down one branch

// A word of the index as a number of words or of units.
pub fn index_word(t: &[u32], i: usize) -> usize
    requires { i < length t.now }
    ensures { result ≡ get_or t.now i 0 }
{
    t[i] as usize
}

// The words of each of 2 ^ d segments: w / 2 ^ d, rounded up. It is shifted, since a division takes much longer.
fn segment_size(w: usize, d: u32) -> usize
    requires { (w ≤ most_words) × (d ≤ depth) }
    ensures { result ≡ segment_size w (2 ^ d) }
{
    (w + ((1usize << d) - 1)) >> d
}

// The segments of an arena: how many there are, the logarithm of that, and the words of each.
#[derive(Clone, Copy)]
pub struct Segments {
    pub count: usize,
    pub log: u32,
    pub size: usize,
}

// An arena of w words in s segments.
pub fn segments_of(s: u32, w: usize) -> Segments
    requires { (is_power s depth ≡ true) × (w ≤ most_words) }
    ensures { Divided s w result }
{
    let log = depth_of(s);
    let size = segment_size(w, log);
    Segments {
        count: s as usize,
        log,
        size,
    }
}

// The segment of g words that a word lies in. The division is in 32 bits, where it takes less time than in 64.
pub fn segment_of(at: usize, g: usize) -> usize
    requires { (0 < g) × (at < 2 ^ 32) × (g < 2 ^ 32) }
    ensures { result ≡ at / g }
{
    (at as u32 / g as u32) as usize
}

// The lowest leaf that is at least n, where the root is: down the tree, left where the left word is large enough.
pub fn descend(t: &[u32], d: u32, n: u32) -> usize
    requires { (d ≤ depth) × (Heap (2 ^ d) t.now) × (n ≤ get_or t.now 1 0) }
    ensures { LowestLeaf (2 ^ d) t.now n result }
{
    let mut i: usize = 1;
    for _ in 0..d {
        i = 2 * i;
        if t[i] < n {
            i += 1;
        }
    }
    i
}

// The other son of the word above i. In this form the compiler sees that only the last bit changes, and flips it.
fn beside(i: usize) -> usize
    requires { (0 < i) × (i < 2 ^ 63) }
    ensures { result + i ≡ 4 * (i / 2) + 1 }
{
    2 * (i / 2) + (1 - i % 2)
}

// A leaf gets a new value, and each word above it the larger of its sons: the one that was just written is carried up.
pub fn raise(t: &mut [u32], s: usize, at: usize, v: u32)
    requires { (Heap s t.old) × (s ≤ at) × (at < 2 * s) }
    ensures { Raised s t.old at v t.new }
{
    t[at] = v;
    let mut i = at;
    let mut most = v;
    while 1 < i {
        most = most.max(t[beside(i)]);
        i = i / 2;
        t[i] = most;
    }
}

// The same where no word is larger: nothing is to be compared, so no word that was just written is waited for.
pub fn raise_most(t: &mut [u32], s: usize, at: usize, v: u32)
    requires heap { (Heap s t.old) × (s ≤ at) × (at < 2 * s) }
    requires by_index { (j : ℕ) → j < 2 * s → get_or t.old j 0 ≤ v }
    ensures { Raised s t.old at v t.new }
{
    t[at] = v;
    let mut i = at;
    while 1 < i {
        i = i / 2;
        t[i] = v;
    }
}

// A word of the tree: 2 ^ height leaves lie below it.
#[derive(Clone, Copy)]
struct Node {
    pub at: usize,
    pub height: u32,
}

// Up from leaf i while the word to the left is 0, and then left: the lowest word over the last leaf before i that is
// not 0.
fn climb(t: &[u32], d: u32, i: usize) -> Node
    requires { Later d t.now i }
    ensures { Above (2 ^ d) t.now i result.height result.at }
{
    let mut j = i;
    let mut h: u32 = 0;
    while t[j - 1] == 0 {
        j = j / 2;
        h += 1;
    }
    Node {
        at: j - 1,
        height: h,
    }
}

// The last leaf below a word that is not 0: down, right where the right word is not 0.
fn last_under(t: &[u32], n: Node) -> usize
    requires { (s : ℕ) × Under s t.now n.height n.at }
    ensures { (s : ℕ) → Under s t.now n.height n.at
        → LastIn t.now (n.at * 2 ^ n.height) (n.at * 2 ^ n.height + 2 ^ n.height) result }
{
    let mut j = n.at;
    for _ in 0..n.height {
        j = 2 * j + 1;
        if t[j] == 0 {
            j -= 1;
        }
    }
    j
}

// The last leaf before i that is not 0. The first leaf is not 0: a block begins at word 0.
pub fn last_before(t: &[u32], d: u32, i: usize) -> usize
    requires { Later d t.now i }
    ensures { LastIn t.now (2 ^ d) i result }
{
    let n = climb(t, d, i);
    last_under(t, n)
}
