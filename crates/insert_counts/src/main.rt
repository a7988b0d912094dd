// Insertions into the free tree of an arena, by lot and as in the bench sheet's T8: the number of links that an
// insertion says it stored is held to a count over the arena's words before and after.
#![tactic(auto)]

ghost use Rattle.std.specs.Prelude.{◌≡◌, ◌≤◌, true, length, MatchOption};
ghost use Rattle.stored_forms.specs.Tree.{form_of};
ghost use Rattle.free_tree.specs.Links.{link_of};
ghost use Rattle.insert_counts.specs.Map.{Mapped, Fits, Marked};

use free_tree::{count_of, link_of};
use std::{fmt, io};
use testing::printing::Shown;
use testing::{pick, stirred};
use tree_nodes::forms::cell_count;

// What a round has come to: the form's number, the root link, the last random number, insertions, links stored, and insertions whose
// number was another than the count.
#[derive(Clone, Copy)]
struct Round {
    form: u32,
    root: usize,
    seed: u64,
    insertions: u64,
    links: u64,
    differences: u64,
}

// ---- a map with a word for each cell, 0 where it lies in no block

// Whether there are `n` cells from cell `x` on, at least one, and none lies in a block.
fn fits(map: &[u32], x: usize, n: usize) -> bool
    ensures { result ≡ true → Fits map.now x n }
{
    if n == 0 {
        return false;
    }
    if map.len() <= x {
        return false;
    }
    if map.len() - x < n {
        return false;
    }
    words::is_zero_part(map, x, x + n)
}

// The cells from `lo` up to `hi` lie in a block.
fn mark(map: &mut [u32], lo: usize, hi: usize)
    requires { (lo ≤ hi) × (hi ≤ length map.old) }
    ensures { Marked map.old map.new lo hi }
{
    words::fill_part(map, lo, hi, 1);
}

// Inserts the block of `n` cells at cell `x` if it fits. Returns the root link and how many links were stored.
fn insert_where_free(
    form: u32,
    arena: &mut [u32],
    map: &mut [u32],
    root: usize,
    x: usize,
    n: usize,
) -> u64
    requires { Mapped (form_of form) arena.old map.old root }
    ensures { Mapped (form_of form) arena.new map.new (link_of result) }
{
    if !fits(map, x, n) {
        return root as u64;
    }
    mark(map, x, x + n);
    free_tree::insert(form, arena, root, x, n as u32)
}

// ---- the count by words

// How many of the two links in a word differ in another.
fn halves(a: u32, b: u32) -> u64 {
    u64::from(a % 65536 != b % 65536) + u64::from(a / 65536 != b / 65536)
}

// The same for word `i`, where the form has two links in the second word of a cell, or one in the second and one in the
// third.
fn links_in(form: u32, i: usize, a: u32, b: u32) -> u64 {
    if form == 2 {
        return u64::from(matches!(i % 4, 1 | 2) & (a != b));
    }
    if i % 2 == 0 {
        return 0;
    }
    halves(a, b)
}

// A word that is no node's is zero before and after.
fn links_changed(form: u32, before: &[u32], after: &[u32]) -> u64 {
    let mut sum: u64 = 0;
    for (i, (a, b)) in before.iter().zip(after).enumerate() {
        sum = sum.wrapping_add(links_in(form, i, *a, *b));
    }
    sum
}

fn copy(from: &[u32], to: &mut [u32]) {
    for (b, a) in to.iter_mut().zip(from) {
        *b = *a;
    }
}

// ---- insertions

// The round after an insertion that says k: the root link and a number of links. `changed` is the count by words, the
// root link among them; where the block did not fit it is 0.
fn counted(round: Round, root: usize, said: u64, changed: u64) -> Round
    ensures { (result.form ≡ round.form) × (result.root ≡ root) }
{
    Round {
        root,
        insertions: round.insertions.wrapping_add(u64::from(changed != 0)),
        links: round.links.wrapping_add(said),
        differences: round.differences.wrapping_add(u64::from(said != changed)),
        ..round
    }
}

// Inserts the block of `n` cells at cell `x`, if it fits.
fn step(
    round: Round,
    arena: &mut [u32],
    map: &mut [u32],
    before: &mut [u32],
    x: usize,
    n: usize,
) -> Round
    requires { Mapped (form_of round.form) arena.old map.old round.root }
    ensures { Mapped (form_of result.form) arena.new map.new result.root }
{
    let form = round.form;
    let old = round.root;
    copy(arena, before);
    let k = insert_where_free(form, arena, map, old, x, n);
    let root = link_of(k);
    let changed = links_changed(form, before, arena).wrapping_add(u64::from(root != old));
    counted(round, root, count_of(k), changed)
}

// A block of fewer than `most` cells anywhere.
fn turn(round: Round, arena: &mut [u32], map: &mut [u32], before: &mut [u32], most: usize) -> Round
    requires { Mapped (form_of round.form) arena.old map.old round.root }
    ensures { Mapped (form_of result.form) arena.new map.new result.root }
{
    let a = stirred(round.seed);
    let b = stirred(a);
    let x = pick(a, map.len() as u64) as usize;
    let n = pick(b, most as u64) as usize;
    step(Round { seed: b, ..round }, arena, map, before, x, n)
}

fn turns(
    start: Round,
    arena: &mut [u32],
    map: &mut [u32],
    before: &mut [u32],
    most: usize,
    count: usize,
) -> Round
    requires { Mapped (form_of start.form) arena.old map.old start.root }
    ensures { Mapped (form_of result.form) arena.new map.new result.root }
{
    let mut round = start;
    for _ in 0..count {
        round = turn(round, arena, map, before, most);
    }
    round
}

// ---- rounds

// An arena of zeros with no block, and its map, which has to have a word for each cell.
fn opened(form: u32, arena: &mut [u32], map: &mut [u32], seed: u64) -> Option<Round>
    ensures { MatchOption result (Unit {0}) (λ r. Mapped (form_of r.form) arena.new map.new r.root) }
{
    if map.len() != cell_count(form, arena.len()) {
        return None;
    }
    if 8192 < map.len() {
        return None;
    }
    words::fill(arena, 0);
    words::fill(map, 0);
    Some(Round {
        form,
        root: 0,
        seed,
        insertions: 0,
        links: 0,
        differences: 0,
    })
}

impl fmt::Display for Round {
    fn fmt<W: fmt::Write>(&self, f: &mut fmt::Formatter<W>) -> fmt::Result {
        write!(
            f,
            "{} insertions, {} links stored, {} differences",
            self.insertions, self.links, self.differences
        )
    }
}

fn play(
    rt: &impl Print,
    form: u32,
    arena: &mut [u32],
    map: &mut [u32],
    before: &mut [u32],
    most: usize,
    seed: u64,
) -> io::Result<()> {
    let Some(start) = opened(form, arena, map, seed) else {
        return Ok(());
    };
    let done = turns(start, arena, map, before, most, 600);
    println!(rt; "{} words: {done}", arena.len())
}

// 01, T8: beside the block of cells 0 to 2 the block of cells 5 to 7 is inserted.
fn sheet_blocks(start: Round, arena: &mut [u32], map: &mut [u32], before: &mut [u32]) -> Round
    requires { Mapped (form_of start.form) arena.old map.old start.root }
    ensures { Mapped (form_of result.form) arena.new map.new result.root }
{
    let first = step(start, arena, map, before, 0, 3);
    step(first, arena, map, before, 5, 3)
}

fn bench_sheet(
    rt: &impl Print,
    form: u32,
    arena: &mut [u32],
    map: &mut [u32],
    before: &mut [u32],
) -> io::Result<()> {
    let Some(start) = opened(form, arena, map, 0) else {
        return Ok(());
    };
    let done = sheet_blocks(start, arena, map, before);
    println!(rt; "T8:{}", Shown(arena))?;
    println!(rt; "{done}")
}

// A round's words of arena, and the number that its blocks' cells stay below.
#[derive(Clone, Copy)]
struct Size {
    words: usize,
    most: usize,
}

const SIZES: [Size; 9] = [
    Size { words: 2, most: 2 },
    Size { words: 16, most: 4 },
    Size { words: 24, most: 6 },
    Size {
        words: 1024,
        most: 3,
    },
    Size {
        words: 1024,
        most: 40,
    },
    Size {
        words: 4096,
        most: 12,
    },
    Size {
        words: 16384,
        most: 2,
    },
    Size {
        words: 16384,
        most: 20,
    },
    Size {
        words: 16384,
        most: 300,
    },
];

// Runs `f` on the first words, and on the map of their cells.
fn on_first<R, F: FnOnce(&mut [u32], &mut [u32]) -> R>(
    form: u32,
    words: usize,
    arena: &mut [u32],
    map: &mut [u32],
    f: F,
) -> R
    requires { F.IsAlwaysCallable f }
{
    let w = words.min(arena.len());
    let m = cell_count(form, words).min(map.len());
    f(&mut arena[..w], &mut map[..m])
}

// T8 on so many words, which are eight cells, and then rounds of each size. A line that can't be printed is passed over.
fn run(
    rt: &impl Print,
    form: u32,
    sheet: usize,
    arena: &mut [u32],
    map: &mut [u32],
    before: &mut [u32],
) {
    let _ = on_first(form, sheet, arena, map, |arena, map| {
        bench_sheet(rt, form, arena, map, before)
    });
    for (seed, size) in SIZES.iter().enumerate() {
        let _ = on_first(form, size.words, arena, map, |arena, map| {
            play(rt, form, arena, map, before, size.most, seed as u64)
        });
    }
}

fn main(rt: HostRuntime) {
    let mut arena = [0u32; 16384];
    let mut map = [0u32; 8192];
    let mut before = [0u32; 16384];
    run(&rt, 1, 16, &mut arena, &mut map, &mut before);
    run(&rt, 2, 32, &mut arena, &mut map, &mut before);
}
