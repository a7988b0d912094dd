// The walk of the free tree, over any memory (01, "The soundness check visits the tree left part, node, right part").
ghost use Rattle.std.specs.Prelude.{◌+◌, ◌<◌, ◌≤◌, IfSome};
ghost use Rattle.words.specs.Flags.{Says};
ghost use Rattle.stored_forms.specs.Tree.{form_of};
ghost use Rattle.tree_nodes.specs.Nodes.{cells};
ghost use Rattle.tree_check.specs.Walk.{Ready, Between, NodeFollows, Walked, Passes, Meets};

use crate::record_map::leads_to;
use tree_nodes::forms::cell_count;
use tree_nodes::{is_clear, left_of, length_of, right_of};

// Whether a block of z cells at cell c lies between cells k and hi, and is shorter than the limit.
fn is_between(k: usize, hi: usize, limit: usize, c: usize, z: usize) -> bool
    requires { c < hi }
    ensures { Says result (Between k hi limit c z) }
{
    if c < k {
        return false;
    }
    if z == 0 {
        return false;
    }
    if limit <= z {
        return false;
    }
    z <= hi - c
}

// Whether the node of z cells at cell c follows records that begin at cell k, with zeros behind its words. Free blocks
// that touch are none, but nothing lies before cell 0.
fn node_ok(form: u32, arena: &[u32], map: &[u8], k: usize, c: usize, z: usize) -> bool
    requires { (k ≤ c) × (1 ≤ z) × Ready (form_of form) arena.now map.now (c + z) }
    ensures { Says result (NodeFollows (form_of form) arena.now map.now k c z) }
{
    if c == k {
        if k != 0 {
            return false;
        }
    }
    if !leads_to(map, k, c) {
        return false;
    }
    is_clear(form, arena, c, z)
}

// Left part, node, right part: whether the blocks of the tree at the link, each shorter than the limit, lie apart from
// cell k on, with records between them. Nodes to the left have to be shorter than their father, those to the right no
// longer. Answers the cell past the last block, k if there is none, or 2,097,152, which no arena has, if something is
// wrong; if nothing is, the blocks' cells have been added to `*free`. On any memory the walk ends, and its calls lie in
// each other no deeper than allowed, because each takes one; they are few, because each node that is right lies further
// on, and one that is wrong ends the walk. It answers one number and is lent its slices by reference, so that nothing
// of a level is left when its right part is walked: the compiler makes that call a jump.
fn walk(
    form: u32,
    arena: &&[u32],
    map: &&[u8],
    link: usize,
    limit: usize,
    k: usize,
    free: &mut usize,
    allowed: usize,
) -> usize
    requires ready { Ready (form_of form) arena.now.now map.now.now (cells (form_of form) arena.now.now) }
    requires k_bound { (k ≤ cells (form_of form) arena.now.now) × (free.old ≤ k) }
    ensures walked { result ≤ cells (form_of form) arena.now.now
        → Walked (form_of form) arena.now.now map.now.now
        (cells (form_of form) arena.now.now) link limit k free.old result free.new }
    ensures passes { Passes (form_of form) arena.now.now map.now.now
        (cells (form_of form) arena.now.now) link limit k allowed free.old result
        free.new }
{
    if link == 0 {
        return k;
    }
    let count = cell_count(form, arena.len());
    if count < link {
        return 2097152;
    }
    if allowed == 0 {
        return 2097152;
    }
    let c = link - 1;
    let z = length_of(form, *arena, c) as usize;
    if !is_between(k, count, limit, c, z) {
        return 2097152;
    }
    let lower = left_of(form, *arena, c);
    let mut next = k;
    if lower != 0 {
        next = walk(form, arena, map, lower, z, k, &mut *free, allowed - 1);
        if c < next {
            return 2097152;
        }
    }
    if !node_ok(form, *arena, *map, next, c, z) {
        return 2097152;
    }
    *free += z;
    let upper = right_of(form, *arena, c);
    if upper == 0 {
        return c + z;
    }
    walk(
        form,
        arena,
        map,
        upper,
        z + 1,
        c + z,
        &mut *free,
        allowed - 1,
    )
}

// The walk of the whole tree, from its root on: the cell past the last block, 0 if there is none, and how many cells the
// blocks have together; none if something is wrong.
pub fn walk_all(
    form: u32,
    arena: &[u32],
    map: &[u8],
    root: usize,
    limit: usize,
    allowed: usize,
) -> Option<(usize, usize)>
    requires { Ready (form_of form) arena.now map.now (cells (form_of form) arena.now) }
    ensures walked { IfSome result (λ met. Walked (form_of form) arena.now map.now (cells (form_of form) arena.now) root
        limit 0 0 met.0 met.1) }
    ensures meets { Meets (form_of form) arena.now map.now (cells (form_of form) arena.now) root limit allowed result }
{
    let mut free = 0;
    let end = walk(form, &arena, &map, root, limit, 0, &mut free, allowed);
    if cell_count(form, arena.len()) < end {
        return None;
    }
    Some((end, free))
}
