// Nodes of the free tree (01, "Stored form of the tree pool"), one by one: no other crate's code knows how a node lies
// in the words of its cell. The first parameter is the form's number (02, ticket 3).
#![tactic(auto, using(crate::proofs::FormLaws::by_form), unfolding(stored_forms::specs::Tree::form_one, stored_forms::specs::Tree::form_two, stored_forms::specs::Tree::form_three, stored_forms::specs::Tree::tree_range))]

pub mod forms;
pub mod four_words;
pub mod layout;
pub mod two_words;

ghost use Rattle.std.specs.Prelude.{◌≡◌, suc, ◌+◌, ◌*◌, ◌≤◌, ◌<◌};
ghost use Rattle.words.specs.Flags.{Says};
ghost use Rattle.stored_forms.specs.Tree.{form_of, length_at, left_at, right_at};
ghost use Rattle.stored_forms.specs.Blocks.{Zeros};
ghost use Rattle.tree_nodes.specs.Nodes.{count_base, cells, differ, NodeOnly, NodePut, LeftSet, RightSet};
ghost use Rattle.tree_nodes.specs.Nodes.{NodeCleared, wiped_cells};

use four_words::FourWords;
use layout::Layout;
use two_words::TwoWords;

// The length of the node at cell `c`.
pub fn length_of(form: u32, arena: &[u32], c: usize) -> u32
    requires { c < cells (form_of form) arena.now }
    ensures { result ≡ length_at (form_of form) arena.now c }
{
    if form == 2 {
        return FourWords::length(arena, c);
    }
    TwoWords::length(arena, c)
}

// The left link of the node at cell `c`.
pub fn left_of(form: u32, arena: &[u32], c: usize) -> usize
    requires { c < cells (form_of form) arena.now }
    ensures { result ≡ left_at (form_of form) arena.now c }
{
    if form == 2 {
        return FourWords::left(arena, c);
    }
    TwoWords::left(arena, c)
}

// The right link of the node at cell `c`.
pub fn right_of(form: u32, arena: &[u32], c: usize) -> usize
    requires { c < cells (form_of form) arena.now }
    ensures { result ≡ right_at (form_of form) arena.now c }
{
    if form == 2 {
        return FourWords::right(arena, c);
    }
    TwoWords::right(arena, c)
}

// Whether the block of `z` cells from cell `c` on has nothing but a node: no word is set that a node of the form leaves
// 0, and none behind it.
pub fn is_clear(form: u32, arena: &[u32], c: usize, z: usize) -> bool
    requires { (1 ≤ z) × (c + z ≤ cells (form_of form) arena.now) }
    ensures { Says result (NodeOnly (form_of form) arena.now c z) }
{
    if form == 2 {
        return FourWords::is_clear(arena, c, z);
    }
    TwoWords::is_clear(arena, c, z)
}

// Sets the left link of the node at cell `c`.
pub fn set_left(form: u32, arena: &mut [u32], c: usize, l: usize)
    requires c_bound { c < cells (form_of form) arena.old }
    requires l_bound { l < (form_of form).links }
    ensures { LeftSet (form_of form) arena.old arena.new c l }
{
    if form == 2 {
        FourWords::set_left(arena, c, l);
        return;
    }
    TwoWords::set_left(arena, c, l);
}

// Sets the right link of the node at cell `c`.
pub fn set_right(form: u32, arena: &mut [u32], c: usize, r: usize)
    requires c_bound { c < cells (form_of form) arena.old }
    requires r_bound { r < (form_of form).links }
    ensures { RightSet (form_of form) arena.old arena.new c r }
{
    if form == 2 {
        FourWords::set_right(arena, c, r);
        return;
    }
    TwoWords::set_right(arena, c, r);
}

// Writes the node of a block of `n` cells at cell `c`.
pub fn put_node(form: u32, arena: &mut [u32], c: usize, n: u32, l: usize, r: usize)
    requires c_bound { c < cells (form_of form) arena.old }
    requires l_bound { (l < (form_of form).links) × (r < (form_of form).links) }
    ensures { NodePut (form_of form) arena.old arena.new c n l r }
{
    if form == 2 {
        FourWords::put_node(arena, c, n, l, r);
        return;
    }
    TwoWords::put_node(arena, c, n, l, r);
}

// Clears the node at cell `c`: the words of a node of no cells with no links are zero.
pub fn clear_node(form: u32, arena: &mut [u32], c: usize)
    requires { c < cells (form_of form) arena.old }
    ensures { NodeCleared (form_of form) arena.old arena.new c }
{
    put_node(form, arena, c, 0, 0, 0);
}

// Zeros in the cells from `lo` up to `hi`.
pub fn wipe_cells(form: u32, arena: &mut [u32], lo: usize, hi: usize)
    requires { (lo ≤ hi) × (hi ≤ cells (form_of form) arena.old) }
    ensures { arena.new ≡ wiped_cells (form_of form) lo hi arena.old }
{
    if form == 2 {
        FourWords::wipe(arena, lo, hi);
        return;
    }
    TwoWords::wipe(arena, lo, hi);
}

// ---- links stored and counted, for an insertion: it stores a link by these three alone

// Sets the left link of the node at cell `c`, and returns one more than `stored`.
pub fn store_left(form: u32, arena: &mut [u32], c: usize, l: usize, stored: u64) -> u64
    requires c_bound { c < cells (form_of form) arena.old }
    requires l_bound { (l < (form_of form).links) × (stored < count_base) }
    ensures { LeftSet (form_of form) arena.old arena.new c l × (result ≡ stored + 1) }
{
    set_left(form, arena, c, l);
    stored + 1
}

// Sets the right link of the node at cell `c`, and returns one more than `stored`.
pub fn store_right(form: u32, arena: &mut [u32], c: usize, r: usize, stored: u64) -> u64
    requires c_bound { c < cells (form_of form) arena.old }
    requires r_bound { (r < (form_of form).links) × (stored < count_base) }
    ensures { RightSet (form_of form) arena.old arena.new c r × (result ≡ stored + 1) }
{
    set_right(form, arena, c, r);
    stored + 1
}

// Writes the node of a block of `n` cells at cell `c`, whose words are zero: the links only if they are not 0. Returns
// how many links are not 0.
pub fn put_first(form: u32, arena: &mut [u32], c: usize, n: u32, l: usize, r: usize) -> u64
    requires c_bound { c < cells (form_of form) arena.old }
    requires l_bound { (l < (form_of form).links) × (r < (form_of form).links) }
    requires zeros { Zeros arena.old ((form_of form).cell * c) ((form_of form).cell * suc c) }
    ensures node_put { NodePut (form_of form) arena.old arena.new c n l r }
    ensures value { result ≡ differ 0 l + differ 0 r }
{
    if form == 2 {
        return FourWords::put_first(arena, c, n, l, r);
    }
    TwoWords::put_first(arena, c, n, l, r)
}
