// How a node lies in the words of its cell. Each layout reads and writes nodes in its own way, and all make the same
// promises, over a form whose nodes lie so.
ghost use Rattle.std.specs.Prelude.{◌≡◌, suc, ◌+◌, ◌*◌, ◌≤◌, ◌<◌};
ghost use Rattle.words.specs.Flags.{Says};
ghost use Rattle.stored_forms.specs.Tree.{Form, length_at, left_at, right_at};
ghost use Rattle.stored_forms.specs.Blocks.{Zeros};
ghost use Rattle.tree_nodes.specs.Nodes.{cells, differ, NodeOnly, NodePut, LeftSet, RightSet, wiped_cells};

pub trait Layout {
    ghost form: { Form };

    // The length of the node at cell `c`.
    fn length(arena: &[u32], c: usize) -> u32
        requires { c < cells form arena.now }
        ensures { result ≡ length_at form arena.now c };

    // The left link of the node at cell `c`.
    fn left(arena: &[u32], c: usize) -> usize
        requires { c < cells form arena.now }
        ensures { result ≡ left_at form arena.now c };

    // The right link of the node at cell `c`.
    fn right(arena: &[u32], c: usize) -> usize
        requires { c < cells form arena.now }
        ensures { result ≡ right_at form arena.now c };

    // Whether the block of `z` cells from cell `c` on has nothing but a node: no word is set that a node leaves 0, and
    // none behind it.
    fn is_clear(arena: &[u32], c: usize, z: usize) -> bool
        requires { (1 ≤ z) × (c + z ≤ cells form arena.now) }
        ensures { Says result (NodeOnly form arena.now c z) };

    // Sets the left link of the node at cell `c`.
    fn set_left(arena: &mut [u32], c: usize, l: usize)
        requires c_bound { c < cells form arena.old }
        requires l_bound { l < form.links }
        ensures { LeftSet form arena.old arena.new c l };

    // Sets the right link of the node at cell `c`.
    fn set_right(arena: &mut [u32], c: usize, r: usize)
        requires c_bound { c < cells form arena.old }
        requires r_bound { r < form.links }
        ensures { RightSet form arena.old arena.new c r };

    // Writes the node of a block of `n` cells at cell `c`.
    fn put_node(arena: &mut [u32], c: usize, n: u32, l: usize, r: usize)
        requires c_bound { c < cells form arena.old }
        requires l_bound { (l < form.links) × (r < form.links) }
        ensures { NodePut form arena.old arena.new c n l r };

    // Writes the node at cell `c`, whose words are zero: no word of links is written that has none. Returns how many
    // links are not 0.
    fn put_first(arena: &mut [u32], c: usize, n: u32, l: usize, r: usize) -> u64
        requires c_bound { c < cells form arena.old }
        requires l_bound { (l < form.links) × (r < form.links) }
        requires zeros { Zeros arena.old (form.cell * c) (form.cell * suc c) }
        ensures node_put { NodePut form arena.old arena.new c n l r }
        ensures value { result ≡ differ 0 l + differ 0 r };

    // Zeros in the cells from `lo` up to `hi`.
    fn wipe(arena: &mut [u32], lo: usize, hi: usize)
        requires { (lo ≤ hi) × (hi ≤ cells form arena.old) }
        ensures { arena.new ≡ wiped_cells form lo hi arena.old };
}
