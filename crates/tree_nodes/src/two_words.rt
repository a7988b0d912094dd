// Nodes written in two words: the length, then both links in one (01, "Stored form of the tree pool").
ghost use Rattle.std.specs.Prelude.{◌≡◌};
ghost use Rattle.stored_forms.specs.Tree.{form_one};
ghost use Rattle.tree_nodes.specs.Nodes.{differ};

use crate::layout::Layout;

// 0 for the link 0, which a zero word has already, and 1 for any other.
fn if_link(l: usize) -> u64
    ensures { result ≡ differ 0 l }
{
    if l == 0 {
        return 0;
    }
    1
}

// The layout of forms 1 and 3.
pub struct TwoWords;

impl Layout for TwoWords {
    ghost form = { form_one };

    fn length(arena: &[u32], c: usize) -> u32 {
        arena[2 * c]
    }

    fn left(arena: &[u32], c: usize) -> usize {
        (arena[2 * c + 1] % 65536) as usize
    }

    fn right(arena: &[u32], c: usize) -> usize {
        (arena[2 * c + 1] / 65536) as usize
    }

    fn is_clear(arena: &[u32], c: usize, z: usize) -> bool {
        words::is_zero_part(arena, 2 * c + 2, 2 * (c + z))
    }

    fn set_left(arena: &mut [u32], c: usize, l: usize) {
        let i = 2 * c + 1;
        let r = arena[i] / 65536;
        arena[i] = l as u32 + 65536 * r;
    }

    fn set_right(arena: &mut [u32], c: usize, r: usize) {
        let i = 2 * c + 1;
        let l = arena[i] % 65536;
        arena[i] = l + 65536 * r as u32;
    }

    fn put_node(arena: &mut [u32], c: usize, n: u32, l: usize, r: usize) {
        arena[2 * c] = n;
        arena[2 * c + 1] = l as u32 + 65536 * r as u32;
    }

    fn put_first(arena: &mut [u32], c: usize, n: u32, l: usize, r: usize) -> u64 {
        let stored = if_link(l) + if_link(r);
        if stored == 0 {
            arena[2 * c] = n;
            return stored;
        }
        TwoWords::put_node(arena, c, n, l, r);
        stored
    }

    fn wipe(arena: &mut [u32], lo: usize, hi: usize) {
        words::fill_part(arena, 2 * lo, 2 * hi, 0);
    }
}
