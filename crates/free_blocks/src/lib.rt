// Free blocks of the tree pool: cells taken from the low end of a block, and cells given back and merged with the
// blocks they touch.
#![tactic(auto)]

ghost use Rattle.std.specs.Prelude.{List, ◌-◌};
ghost use Rattle.ledger.specs.Runs.{Run};
ghost use Rattle.stored_forms.specs.Tree.{form_of};
ghost use Rattle.free_tree.specs.Shapes.{ends_at, begins_at};
ghost use Rattle.free_blocks.specs.Blocks.{Takeable, Taken, Gives, Given};
ghost use Rattle.free_blocks.specs.Giving.{LiesAt, HeldCell, TakenOut, MergedBelow, MergedAbove};

// Takes the first `k` cells of the free block at the link `block`, whose father is at the link `over`, 0 for none, and
// returns the link to the tree of what is left. The cells taken read zero.
pub fn take_cells(
    form: u32,
    arena: &mut [u32],
    root: usize,
    block: usize,
    over: usize,
    k: usize,
) -> usize
    requires { Takeable (form_of form) arena.old root block over k }
    ensures { Taken (form_of form) arena.old arena.new root block over k result }
{
    let c = block - 1;
    let n = tree_nodes::length_of(form, arena, c) as usize;
    if k < n {
        let whole = free_tree::shrink(form, arena, root, block, over, k);
        tree_nodes::clear_node(form, arena, c);
        return whole;
    }
    let rest = free_tree::delete_at(form, arena, root, block, over);
    tree_nodes::clear_node(form, arena, c);
    rest
}

// Takes the free block at cell `first` out of the tree, and returns the link to the rest. All of the block's words
// read zero.
fn take_out(form: u32, arena: &mut [u32], root: usize, first: usize) -> usize
    requires { LiesAt (form_of form) arena.old root first }
    ensures { TakenOut (form_of form) arena.old arena.new root first result }
{
    let rest = free_tree::delete(form, arena, root, first);
    tree_nodes::clear_node(form, arena, first);
    rest
}

// The link to the tree without the block that touches, and the merged block's end on that side.
#[derive(Clone, Copy)]
struct Merge {
    root: usize,
    cell: usize,
}

// Takes out the free block at the link `block`, which ends at cell `lo`. The merged block begins where that block does,
// or at `lo` if there is none.
fn merge_below(form: u32, arena: &mut [u32], root: usize, block: usize, lo: usize) -> Merge
    requires { (rs : List Run) × HeldCell (form_of form) arena.old root lo (ends_at lo) block rs }
    ensures { MergedBelow (form_of form) arena.old arena.new root block lo result.root result.cell }
{
    if block == 0 {
        return Merge { root, cell: lo };
    }
    let c = block - 1;
    let root = take_out(form, arena, root, c);
    Merge { root, cell: c }
}

// Takes out the free block at the link `block`, which begins at cell `hi`. The merged block ends where that block does,
// or at `hi` if there is none.
fn merge_above(form: u32, arena: &mut [u32], root: usize, block: usize, hi: usize) -> Merge
    requires { (rs : List Run) × HeldCell (form_of form) arena.old root (hi - 1) (begins_at hi) block rs }
    ensures { MergedAbove (form_of form) arena.old arena.new root block hi result.root result.cell }
{
    if block == 0 {
        return Merge { root, cell: hi };
    }
    let c = block - 1;
    let n = tree_nodes::length_of(form, arena, c) as usize;
    let root = take_out(form, arena, root, c);
    Merge { root, cell: c + n }
}

// Gives back the cells from `lo` up to `hi`, which are not free, and returns the link to the tree. The cells are
// wiped, and make one free block with the blocks that they touch.
pub fn give_cells(form: u32, arena: &mut [u32], root: usize, lo: usize, hi: usize) -> usize
    requires { (rs : List Run) × Gives (form_of form) arena.old root lo hi rs }
    ensures { Given (form_of form) arena.old arena.new root lo hi result }
{
    tree_nodes::wipe_cells(form, arena, lo, hi);
    let touched = free_tree::touching(form, arena, root, lo, hi);
    let below = merge_below(form, arena, root, touched.lo, lo);
    let above = merge_above(form, arena, below.root, touched.hi, hi);
    let size = (above.cell - below.cell) as u32;
    free_tree::link_of(free_tree::insert(form, arena, above.root, below.cell, size))
}
