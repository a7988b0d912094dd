// Tables from before parties, of three words to a record: a copy of one as party 1.
#![tactic(auto)]

ghost use Rattle.std.specs.Prelude.{◌≡◌, true, ◌+◌, ◌*◌, ◌/◌, ◌<◌, length};
ghost use Rattle.ledger.specs.Records.{table_of};
ghost use Rattle.calls.specs.Refusals.{number_in};
ghost use Rattle.calls.specs.Step.{widened_at, copied, copy_suits};
ghost use Rattle.old_tables.specs.Copies.{copy_of};

use calls::Refusal;
use ledger::Row;

// Whether the old table has whole records, 1 to 256, and the new one as many.
fn copy_suits(old: &[u32], table: &[u32]) -> bool
    ensures { result ≡ copy_suits old.now table.now }
{
    let n = old.len() / 3;
    (old.len() % 3 == 0) & (1 <= n) & (n <= 256) & (table.len() == 4 * n)
}

// Record i of the old table, as party 1; three zeros are an empty record.
fn widened_at(old: &[u32], i: usize) -> Row
    requires { i < length old.now / 3 }
    ensures { result ≡ widened_at old.now i }
{
    let row = Row {
        ticket: old[3 * i],
        address: old[3 * i + 1],
        words: old[3 * i + 2],
        party: 0,
    };
    if row == call_parts::EMPTY_ROW {
        return row;
    }
    Row { party: 1, ..row }
}

// Every record of the old table, in its slot.
fn copy_rows(old: &[u32], table: &mut [u32])
    requires { copy_suits old.now table.old ≡ true }
    ensures { table.new ≡ table_of (copied old.now) }
{
    for i in 0..old.len() / 3 {
        record_table::write_row(table, i, widened_at(old, i));
    }
}

// Copies an old table, of three words to a record, into a new one of as many records, whatever lay there. Refused by 8,
// nothing is written.
pub fn copy_table(old: &[u32], table: &mut [u32]) -> Result<(), Refusal>
    ensures { (number_in result, table.new) ≡ copy_of old.now table.old }
{
    if !copy_suits(old, &*table) {
        return Err(Refusal::BadLengths);
    }
    copy_rows(old, table);
    Ok(())
}
