// The tree pool's gate, the tests before every call: the lent lengths, and one exact test that head and lent memory are
// the stored form of a ledger. Records and free blocks lie side by side, and have as many cells together as the arena.
// Slices are lent on as `&*slice`, which keeps pointer and length in registers (docs/DECISIONS.md, what crosses calls).
#![tactic(auto)]

pub mod record_map;
pub mod tree_walk;

ghost use Rattle.std.specs.Prelude.{◌≡◌, true, ◌<◌, ◌≤◌, length, replicate};
ghost use Rattle.words.specs.Lists.{all, is_zero};
ghost use Rattle.words.specs.Flags.{Says};
ghost use Rattle.ledger.specs.Records.{slots};
ghost use Rattle.stored_forms.specs.Tree.{form_of};
ghost use Rattle.tree_nodes.specs.Nodes.{cells};
ghost use Rattle.calls.specs.Pool.{lengths, stored};
ghost use Rattle.calls.specs.Refusals.{number_in};
ghost use Rattle.calls.specs.Step.{GateIs};
ghost use Rattle.calls.specs.Engines.{tree_engine};
ghost use Rattle.tree_check.specs.Maps.{Roomy, most, Shown};
ghost use Rattle.tree_check.specs.Walk.{Linked};
ghost use Rattle.tree_check.specs.Gate.{tree_pool, RightLengths};

use calls::Refusal;
use record_map::{leads_to, map_rows};
use record_table::slot_count;
use tree_nodes::forms::{cell_count, cells_per_unit, is_form, is_range};
use tree_walk::walk_all;

// What a call of the tree pool is passed and hands back: the root link, the next ticket, 0 when none is left, and the
// number of the pool's form.
#[derive(Clone, Copy, PartialEq, Eq)]
pub struct Head {
    pub root: u32,
    pub next: u32,
    pub form: u32,
}

// ---- the stored form

// Whether the pool is stored, by a map and by residues of tickets that come in all zero.
fn is_shown_over(head: Head, arena: &[u32], table: &[u32], map: &mut [u8], seen: &mut [u8]) -> bool
    requires linked { Linked (form_of head.form) arena.now }
    requires table_bound { (slots table.now ≤ 256) × (slots table.now ≤ most map.old) }
    requires roomy { Roomy map.old (cells (form_of head.form) arena.now) × (all is_zero map.old ≡ true) }
    requires seen_nonzero { 0 < length seen.old }
    ensures { Says result (Shown head arena.now table.now) }
{
    let form = head.form;
    let words = arena.len();
    let Some(held) = map_rows(form, head.next, &*table, words, &mut *map, &mut *seen) else {
        return false;
    };
    let count = cell_count(form, words);
    let allowed = slot_count(&*table) + 1;
    let root = head.root as usize;
    let Some((end, free)) = walk_all(form, &*arena, &*map, root, count + 1, allowed) else {
        return false;
    };
    let known = free + held * cells_per_unit(form);
    leads_to(map, end, count) & (known == count)
}

// The same by a map of MAP bytes, with a byte for each cell or, if MAP is 769 or 6,145, with entries: 64 places where a
// search may begin and room behind them for 32 records that crowd the last, or 512 places and room for 256. Both are
// wiped whole on every call, so that a small pool gets small ones.
fn is_shown_in<const MAP: usize, const SEEN: usize>(
    head: Head,
    arena: &[u32],
    table: &[u32],
) -> bool
    requires linked { Linked (form_of head.form) arena.now }
    requires few { (slots table.now ≤ 256) × (slots table.now ≤ most (replicate MAP 0)) }
    requires roomy { Roomy (replicate MAP 0) (cells (form_of head.form) arena.now) }
    requires sizes { (MAP ≤ 8192) × (0 < SEEN) × (SEEN ≤ 2048) }
    ensures { Says result (Shown head arena.now table.now) }
{
    let mut map: [u8; MAP] = [0; MAP];
    let mut seen: [u8; SEEN] = [0; SEEN];
    is_shown_over(head, &*arena, &*table, &mut map, &mut seen)
}

// Pools of more than 512 cells or 16 records. It stays a call, so that its maps are out of the frame of small pools.
#[inline(never)]
#[tactic(auto, unfolding(crate::specs::Maps::homes))]
fn is_shown_other(head: Head, arena: &[u32], table: &[u32]) -> bool
    requires { Linked (form_of head.form) arena.now × (slots table.now ≤ 256) }
    ensures { Says result (Shown head arena.now table.now) }
{
    let slots = slot_count(&*table);
    let count = cell_count(head.form, arena.len());
    if count <= 2048 {
        if 16 < slots {
            return is_shown_in::<2048, 2048>(head, &*arena, &*table);
        }
        if count <= 1024 {
            return is_shown_in::<1024, 128>(head, &*arena, &*table);
        }
        return is_shown_in::<2048, 128>(head, &*arena, &*table);
    }
    if slots <= 32 {
        return is_shown_in::<769, 128>(head, &*arena, &*table);
    }
    if count <= 4096 {
        return is_shown_in::<4096, 2048>(head, &*arena, &*table);
    }
    if count <= 8192 {
        return is_shown_in::<8192, 2048>(head, &*arena, &*table);
    }
    is_shown_in::<6145, 2048>(head, &*arena, &*table)
}

// Whether the table holds a valid ledger, and the arena the tree of its free runs.
fn is_shown(head: Head, arena: &[u32], table: &[u32]) -> bool
    requires { Linked (form_of head.form) arena.now × (slots table.now ≤ 256) }
    ensures { Says result (Shown head arena.now table.now) }
{
    let count = cell_count(head.form, arena.len());
    if (16 < slot_count(&*table)) | (512 < count) {
        return is_shown_other(head, &*arena, &*table);
    }
    if count <= 64 {
        return is_shown_in::<64, 64>(head, &*arena, &*table);
    }
    is_shown_in::<512, 128>(head, &*arena, &*table)
}

// ---- the gate

// Whether the lent lengths lie in their ranges, in a form that is known.
pub fn right_lengths(form: u32, arena: &[u32], table: &[u32]) -> bool
    ensures { RightLengths form arena.now table.now result }
{
    let slots = slot_count(table);
    is_form(form)
        & is_range(form, arena.len())
        & (table.len() % 4 == 0)
        & (1 <= slots)
        & (slots <= 256)
}

// Whether head and lent memory are the stored form of a ledger.
fn is_stored(head: Head, arena: &[u32], table: &[u32]) -> bool
    requires { lengths tree_engine (tree_pool head arena.now table.now) ≡ true }
    ensures { result ≡ stored tree_engine (tree_pool head arena.now table.now) }
{
    is_shown(head, &*arena, &*table)
}

// The tests that stand before every call: a known form, then right lengths, then a sound pool.
pub fn gate(head: Head, arena: &[u32], table: &[u32]) -> Result<(), Refusal>
    ensures { GateIs tree_engine (tree_pool head arena.now table.now) (number_in result) }
{
    if !is_form(head.form) {
        return Err(Refusal::UnknownForm);
    }
    if !right_lengths(head.form, &*arena, &*table) {
        return Err(Refusal::BadLengths);
    }
    if !is_stored(head, &*arena, &*table) {
        return Err(Refusal::Damaged);
    }
    Ok(())
}
