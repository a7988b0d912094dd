// Nodes written in four words: length, left link, right link and 0 (02, ticket 3).
ghost use Rattle.std.specs.Prelude.{◌≡◌, ◌<◌, length, get_or, set};
ghost use Rattle.stored_forms.specs.Tree.{form_two};
ghost use Rattle.tree_nodes.specs.Nodes.{differ};

use crate::layout::Layout;

// Writes the link `l` to word `i`, which is zero, if it is not 0. Returns 1 if it was written, else 0.
fn put_link(arena: &mut [u32], i: usize, l: usize) -> u64
    requires { (i < length arena.old) × (l < form_two.links) × (get_or arena.old i 0 ≡ 0) }
    ensures { (arena.new ≡ set arena.old i l) × (result ≡ differ 0 l) }
{
    if l == 0 {
        return 0;
    }
    arena[i] = l as u32;
    1
}

// The layout of form 2.
pub struct FourWords;

impl Layout for FourWords {
    ghost form = { form_two };

    fn length(arena: &[u32], c: usize) -> u32 {
        arena[4 * c]
    }

    fn left(arena: &[u32], c: usize) -> usize {
        arena[4 * c + 1] as usize
    }

    fn right(arena: &[u32], c: usize) -> usize {
        arena[4 * c + 2] as usize
    }

    fn is_clear(arena: &[u32], c: usize, z: usize) -> bool {
        words::is_zero_part(arena, 4 * c + 3, 4 * (c + z))
    }

    fn set_left(arena: &mut [u32], c: usize, l: usize) {
        let i = 4 * c + 1;
        arena[i] = l as u32;
    }

    fn set_right(arena: &mut [u32], c: usize, r: usize) {
        let i = 4 * c + 2;
        arena[i] = r as u32;
    }

    fn put_node(arena: &mut [u32], c: usize, n: u32, l: usize, r: usize) {
        arena[4 * c + 3] = 0;
        arena[4 * c] = n;
        arena[4 * c + 1] = l as u32;
        arena[4 * c + 2] = r as u32;
    }

    fn put_first(arena: &mut [u32], c: usize, n: u32, l: usize, r: usize) -> u64 {
        arena[4 * c] = n;
        let left = put_link(arena, 4 * c + 1, l);
        let right = put_link(arena, 4 * c + 2, r);
        left + right
    }

    fn wipe(arena: &mut [u32], lo: usize, hi: usize) {
        words::fill_part(arena, 4 * lo, 4 * hi, 0);
    }
}
