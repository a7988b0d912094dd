// The table of records: reading and writing a slot, searching it, and entering its records one after another, for a check
// that it holds a valid ledger.
#![tactic(auto)]

ghost use Rattle.std.specs.Prelude.{◌≡◌, ◌≢◌, ℕ, true, false, ◌+◌, ◌/◌, ◌-◌, ◌%◌, ◌≤◌, ◌<◌, length, set, IfSome, IsSome};
ghost use Rattle.words.specs.Lists.{is_zero};
ghost use Rattle.words.specs.Counted.{every};
ghost use Rattle.ledger.specs.Records.{record_words, record_at, slots, records_of, table_of, is_party, is_empty, is_live};
ghost use Rattle.ledger.specs.Records.{has_ticket};
ghost use Rattle.ledger.specs.Units.{span, first, past, fits};
ghost use Rattle.record_table.specs.Slots.{ticket_slot, empty_slot, Without, Reached};
ghost use Rattle.record_table.specs.Checks.{row_ok, residue_of};
ghost use Rattle.record_table.specs.Partition.{new_at, other_than, mark_of, Noted, Joins};

use ledger::{Row, Rule};

// An empty slot of the table.
pub const EMPTY_ROW: Row = Row {
    ticket: 0,
    address: 0,
    words: 0,
    party: 0,
};

// The slots of a table, four words to each.
pub fn slot_count(table: &[u32]) -> usize
    ensures { result ≡ slots table.now }
{
    table.len() / 4
}

// The ticket in slot i.
fn ticket_at(table: &[u32], i: usize) -> u32
    requires { i < slots table.now }
    ensures { result ≡ (record_at table.now i).ticket }
{
    table[4 * i]
}

// The record in slot i.
pub fn read_row(table: &[u32], i: usize) -> Row
    requires { i < slots table.now }
    ensures { result ≡ record_at table.now i }
{
    Row {
        ticket: table[4 * i],
        address: table[4 * i + 1],
        words: table[4 * i + 2],
        party: table[4 * i + 3],
    }
}

// A record into slot i.
pub fn write_row(table: &mut [u32], i: usize, r: Row)
    requires i_bound { i < slots table.old }
    requires record_words_len { length table.old % record_words ≡ 0 }
    ensures { table.new ≡ table_of (set (records_of table.old) i r) }
{
    table[4 * i] = r.ticket;
    table[4 * i + 1] = r.address;
    table[4 * i + 2] = r.words;
    table[4 * i + 3] = r.party;
}

// ---- the searches, four slots at a time

// Whether one of the tickets from slot i up to slot i + 4 is x.
fn is_met(table: &[u32], x: u32, i: usize) -> bool
    requires { i + 4 ≤ slots table.now }
    ensures { result ≡ false → Without table.now x i (i + 4) }
{
    (ticket_at(table, i) == x)
        | (ticket_at(table, i + 1) == x)
        | (ticket_at(table, i + 2) == x)
        | (ticket_at(table, i + 3) == x)
}

// So many slots, from the first on, have another ticket: all of them, or all but the last few, or up to the four
// among which one has ticket x.
fn passed(table: &[u32], x: u32) -> usize
    ensures { (result ≤ slots table.now) × Without table.now x 0 result }
{
    let fours = slot_count(table) / 4;
    for k in 0..fours {
        if is_met(table, x, 4 * k) {
            return 4 * k;
        }
    }
    4 * fours
}

// The lowest slot with this ticket. Ticket 0 is no record's, though it stands in every empty slot.
pub fn find_slot(table: &[u32], ticket: u32) -> Option<usize>
    ensures { result ≡ ticket_slot ticket (records_of table.now) }
{
    if ticket == 0 {
        return None;
    }
    let i = passed(table, ticket);
    (i..slot_count(table)).find(|k| ticket_at(table, *k) == ticket)
}

// Each word is looked at, and not as far as the first that differs as `==` would: so the four are tested at once.
pub fn is_empty(r: Row) -> bool
    ensures { result ≡ is_empty r }
{
    (r.ticket == 0) & (r.address == 0) & (r.words == 0) & (r.party == 0)
}

// The lowest empty slot.
pub fn empty_slot(table: &[u32]) -> Option<usize>
    ensures { result ≡ empty_slot (records_of table.now) }
{
    let i = passed(table, 0);
    (i..slot_count(table)).find(|k| is_empty(read_row(table, *k)))
}

// The lowest live slot, or the number of slots. Slot 0 is looked at apart: in a pool that is used it is most often live.
pub fn first_live(table: &[u32]) -> usize
    ensures { Reached is_live table.now 0 result }
{
    let n = slot_count(table);
    if n == 0 {
        return 0;
    }
    if !is_empty(read_row(table, 0)) {
        return 0;
    }
    (1..n).find(|k| !is_empty(read_row(table, *k))).unwrap_or(n)
}

// ---- the unit rule

// What f makes of the words of a unit. The units in use, 1, 2, 4 and 8, are spared a division by a variable.
fn by_unit<F: Fn(usize) -> usize>(unit: usize, f: F) -> usize
    requires callable { (k : ℕ) → 0 < k → F.pre f k }
    requires unit_nonzero { 0 < unit }
    ensures { F.post f unit result }
{
    match unit {
        1 => f(1),
        2 => f(2),
        4 => f(4),
        8 => f(8),
        _ => f(unit),
    }
}

// How often so many words go into w.
fn whole_units(w: usize, unit: usize) -> usize
    requires { 0 < unit }
    ensures { result ≡ w / unit }
{
    by_unit(unit, |k| w / k)
}

// What is left over then.
fn rest(w: u32, unit: u32) -> usize
    requires { 0 < unit }
    ensures { result ≡ w % unit }
{
    by_unit(unit as usize, |k| w as usize % k)
}

// The units that a request for n words takes.
pub fn span_of(rule: Rule, n: u32) -> usize
    requires { 0 < rule.unit }
    ensures { result ≡ span rule n }
{
    whole_units(
        n as usize + rule.lead as usize + (rule.unit as usize - 1),
        rule.unit as usize,
    )
}

// Where a record's block begins, in words: its address less the words before it, and 0 for an address too low for them.
fn begin_of(rule: Rule, r: Row) -> u32
    ensures { result ≡ r.address - rule.lead }
{
    r.address.saturating_sub(rule.lead)
}

// A record's first unit.
pub fn first_unit(rule: Rule, r: Row) -> usize
    requires { 0 < rule.unit }
    ensures { result ≡ first rule r }
{
    whole_units(begin_of(rule, r) as usize, rule.unit as usize)
}

// ---- the check

// Whether a number is a party's.
pub fn is_party(party: u32) -> bool
    ensures { result ≡ is_party party }
{
    (1 <= party) & (party <= 255)
}

// A record by itself, in an arena of so many words, which are whole units. Any numbers may stand in it: nothing wraps. An
// address too low for the words before it goes first, which spares the others a test for that. The units end in the arena
// where the words do, so that nothing is rounded.
fn live_fits(rule: Rule, words: usize, next: u32, r: Row) -> bool
    requires { (0 < rule.unit) × (words % rule.unit ≡ 0) }
    ensures { result ≡ fits rule words next r }
{
    if r.address < rule.lead {
        return false;
    }
    let begin = begin_of(rule, r);
    let end = r.address as usize + r.words as usize;
    (r.ticket != 0)
        & ((next == 0) | (r.ticket < next))
        & (1 <= r.words)
        & is_party(r.party)
        & (rule.lead <= r.address)
        & (rest(begin, rule.unit) == 0)
        & (end <= words)
}

// A ticket's place among m residues. Tickets follow one another, so those alive together rarely share one. Without a
// division, for this is asked of every record; any m is safe, and a power of two spreads them.
fn residue(ticket: u32, m: usize) -> usize
    requires { 0 < m }
    ensures { (result ≡ residue_of m ticket) × (result < m) }
{
    ticket as usize & (m - 1)
}

// ---- records entered slot after slot

// None of the first i tickets is this one. The loop has no way out before its end, so that several are compared at a
// time.
fn unlike_earlier(table: &[u32], i: usize, ticket: u32) -> bool
    requires { i ≤ slots table.now }
    ensures { result ≡ every (other_than table.now ticket) 0 i }
{
    let mut ok = true;
    for j in 0..i {
        ok = ok & (ticket_at(table, j) != ticket);
    }
    ok
}

// What is kept of a ticket at its residue.
fn mark_of(ticket: u32) -> u8
    ensures { result ≡ mark_of ticket }
{
    (ticket / 2048 % 128) as u8 + 1
}

// Whether the ticket of slot i is none of the earlier ones, which are noted; it is noted as well. Only where an earlier
// one has its residue and may have its mark are tickets compared.
fn is_new(seen: &mut [u8], table: &[u32], i: usize, ticket: u32) -> bool
    requires i_bound { (i < slots table.now) × (ticket ≡ (record_at table.now i).ticket) × (is_zero ticket ≡ false) }
    requires seen_nonempty { (0 < length seen.old) × Noted (length seen.old) seen.old table.now i }
    ensures value { result ≡ new_at table.now i }
    ensures noted { Noted (length seen.old) seen.new table.now (i + 1) }
{
    let at = residue(ticket, seen.len());
    let mark = mark_of(ticket);
    let kept = seen[at];
    if kept == 0 {
        seen[at] = mark;
        return true;
    }
    if (kept != mark) & (kept != 255) {
        seen[at] = 255;
        return true;
    }
    unlike_earlier(table, i, ticket)
}

// Whether the record r of slot i, which is not empty, may follow those before it in an arena of whole units: it fits by
// itself, and its ticket is none of theirs. The caller reads the record, for it has more to do with it.
pub fn may_enter(
    rule: Rule,
    words: usize,
    next: u32,
    table: &[u32],
    i: usize,
    r: Row,
    seen: &mut [u8],
) -> bool
    requires unit_nonzero { (0 < rule.unit) × (words % rule.unit ≡ 0) × (i < slots table.now) × (r ≡ record_at table.now i) }
    requires r_value { is_empty r ≡ false }
    requires seen_nonempty { (0 < length seen.old) × Noted (length seen.old) seen.old table.now i }
    ensures joins { result ≡ true → Joins rule words next table.now i (span rule r.words)
        × Noted (length seen.old) seen.new table.now (i + 1) }
    ensures value { row_ok rule words next (record_at table.now i) ≡ true
        → new_at table.now i ≡ true → result ≡ true }
{
    if !live_fits(rule, words, next, r) {
        return false;
    }
    is_new(seen, table, i, r.ticket)
}

// The units of the record r of slot i where it may follow those before it, 0 for an empty one. The arena is taken as
// whole units: no record has any of the words behind them.
pub fn enter_row(
    rule: Rule,
    words: usize,
    next: u32,
    table: &[u32],
    i: usize,
    r: Row,
    seen: &mut [u8],
) -> Option<usize>
    requires unit_nonzero { (0 < rule.unit) × (words < 4294967296) × (i < slots table.now) × (r ≡ record_at table.now i) }
    requires seen_nonempty { (0 < length seen.old) × Noted (length seen.old) seen.old table.now i }
    ensures joins { IfSome result (λ u. (u ≤ words) × Joins rule words next table.now i u
        × Noted (length seen.old) seen.new table.now (i + 1)) }
    ensures accepts { row_ok rule words next (record_at table.now i) ≡ true
        → new_at table.now i ≡ true → IsSome result }
{
    if is_empty(r) {
        return Some(0);
    }
    let unit = rule.unit as usize;
    let room = unit * whole_units(words, unit);
    if may_enter(rule, room, next, table, i, r, seen) {
        Some(span_of(rule, r.words))
    } else {
        None
    }
}
