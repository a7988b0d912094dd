// The map of a table's records: of each, the cells that it holds, in a row from its first cell on. Free blocks are held
// against it: what lies between two of them has to be records.
// Slices are lent on as `&*slice`, which keeps pointer and length in registers (docs/DECISIONS.md, what crosses calls).
ghost use Rattle.std.specs.Prelude.{◌≡◌, true, false, ◌+◌, ◌*◌, ◌/◌, ◌%◌, ◌<◌, ◌≤◌, length, get_or, IfSome, IsSome};
ghost use Rattle.words.specs.Lists.{all, is_zero};
ghost use Rattle.words.specs.Flags.{Says};
ghost use Rattle.ledger.specs.Records.{slots, records_of};
ghost use Rattle.ledger.specs.Units.{first, valid};
ghost use Rattle.stored_forms.specs.Tree.{form_of, form_rule, cells_per_unit};
ghost use Rattle.tree_check.specs.Maps.{four_at, is_entries, home, Found, Leads, Roomy, Grows, FourPut, most};
ghost use Rattle.tree_check.specs.Maps.{Mapped};

use ledger::{Row, Rule};
use tree_nodes::forms::{cells_per_unit, rule_of};

// ---- entries

// A map with one byte more than a multiple of eight has an entry of eight bytes for each record: its first cell and its
// cells, each as four bytes, the lowest first. An entry with no cells is empty. An arena that is large for its records
// gets such a map, because a map with a byte for each cell is wiped on every call.

fn byte_at(map: &[u8], i: usize) -> usize
    requires { i < length map.now }
    ensures { (result < 256) × (result ≡ get_or map.now i 0) }
{
    map[i] as usize
}

// Four bytes as one number, the lowest first.
fn four_at(map: &[u8], i: usize) -> usize
    requires { i + 3 < length map.now }
    ensures { (result < 4294967296) × (result ≡ four_at map.now i) }
{
    u32::from_le_bytes([map[i], map[i + 1], map[i + 2], map[i + 3]]) as usize
}

// Writes a number in four bytes.
fn put_four(map: &mut [u8], i: usize, x: usize)
    requires { (i + 3 < length map.old) × (x < 4294967296) }
    ensures { FourPut map.old map.new i x }
{
    map[i..i + 4].copy_from_slice(&(x as u32).to_le_bytes());
}

// The place where the search for cell k begins, in a map of so many bytes.
fn home_of(bytes: usize, k: usize) -> usize
    requires { k < 4294967296 }
    ensures { (result ≡ home bytes k) × (result < 512) }
{
    if bytes == 769 {
        return k / 64 % 64;
    }
    k * 2654435761 % 4294967296 / 8388608
}

// The cells of the entry for the record from cell k on. The search begins at the home of cell k, and ends at an empty
// entry.
fn entry_for(map: &[u8], k: usize) -> Option<usize>
    requires { (is_entries map.now ≡ true) × (k < 4294967296) }
    ensures { Found map.now k result }
{
    for place in home_of(map.len(), k)..map.len() / 8 {
        if four_at(map, 8 * place) == k {
            return match four_at(map, 8 * place + 4) {
                0 => None,
                n => Some(n),
            };
        }
        if four_at(map, 8 * place + 4) == 0 {
            return None;
        }
    }
    None
}

// Writes an entry for n cells from cell lo on, where the first empty one is. Should all be taken, nothing is written.
fn note_entry(map: &mut [u8], lo: usize, n: usize)
    requires { (lo < 4294967296) × (0 < n) × (n < 4294967296) × (is_entries map.old ≡ true) }
    ensures { Grows map.old map.new lo n }
{
    for place in home_of(map.len(), lo)..map.len() / 8 {
        if four_at(&*map, 8 * place + 4) == 0 {
            put_four(&mut *map, 8 * place, lo);
            put_four(&mut *map, 8 * place + 4, n);
            return;
        }
    }
}

// ---- either map

// How many cells from cell k on the map knows to be held.
fn span_at(map: &[u8], k: usize) -> Option<usize>
    requires { (k < 4294967296) × Roomy map.now (k + 1) }
    ensures { Found map.now k result }
{
    if map.len() % 8 == 1 {
        return entry_for(&*map, k);
    }
    match byte_at(&*map, k) {
        0 => None,
        n => Some(n),
    }
}

// Whether records lead from cell lo to cell hi, without a cell left over.
pub fn leads_to(map: &[u8], lo: usize, hi: usize) -> bool
    requires { (hi < 4294967296) × Roomy map.now hi }
    ensures { Says result (Leads map.now lo hi) }
{
    let mut k = lo;
    while k < hi {
        let Some(n) = span_at(map, k) else {
            return false;
        };
        k += n;
    }
    k == hi
}

// Writes that n cells from cell lo on are held. A byte counts no more than 255, so that the map is small; a longer
// record stands in it several times.
fn note_span(map: &mut [u8], lo: usize, n: usize)
    requires { (0 < n) × (lo + n ≤ length map.old) × (is_entries map.old ≡ false) }
    ensures { Grows map.old map.new lo n }
{
    let mut at = lo;
    let mut left = n;
    while 255 < left {
        map[at] = 255;
        at += 255;
        left -= 255;
    }
    map[at] = left as u8;
}

// The same in either map, for the cells of a record of n units, `per` to a unit.
fn note_row(map: &mut [u8], rule: Rule, r: Row, n: usize, per: usize)
    requires unit_nonzero { (0 < rule.unit) × (0 < per) × (0 < n) }
    requires per_bound { (first rule r * per + n * per < 4294967296) × Roomy map.old (first rule r * per + n * per) }
    ensures { Grows map.old map.new (first rule r * per) (n * per) }
{
    let lo = record_table::first_unit(rule, r) * per;
    let count = n * per;
    if map.len() % 8 == 1 {
        note_entry(&mut *map, lo, count);
        return;
    }
    note_span(&mut *map, lo, count);
}

// Enters all slots, and the records in a map that is all zero. Their units together; none if a slot may not be entered,
// or they have more units together than the arena has words: so no more is noted than the arena has room for. It stays
// a call, which leaves the loop all the registers.
#[inline(never)]
pub fn map_rows(
    form: u32,
    next: u32,
    table: &[u32],
    words: usize,
    map: &mut [u8],
    seen: &mut [u8],
) -> Option<usize>
    requires table_bound { (slots table.now ≤ 256) × (words ≤ 1048576) × Roomy map.old (words / (form_of form).cell) }
    requires map_value { (all is_zero map.old ≡ true) × (0 < length seen.old) }
    requires table_bound_2 { (slots table.now ≤ most map.old) × (words % (form_of form).unit ≡ 0) }
    ensures mapped { IfSome result (λ held. (held ≤ words) × Mapped (form_rule (form_of form))
        (cells_per_unit (form_of form)) words next table.now held map.new) }
    ensures found { valid (form_rule (form_of form)) words next (records_of table.now) ≡ true → IsSome result }
{
    let count = record_table::slot_count(table);
    let first = record_table::first_live(table);
    let rule = rule_of(form);
    let per = cells_per_unit(form);
    let mut held: usize = 0;
    for i in first..count {
        let r = record_table::read_row(table, i);
        if record_table::is_empty(r) {
            continue;
        }
        if !record_table::may_enter(rule, words, next, table, i, r, &mut *seen) {
            return None;
        }
        let n = record_table::span_of(rule, r.words);
        if words - held < n {
            return None;
        }
        note_row(&mut *map, rule, r, n, per);
        held += n;
    }
    Some(held)
}
