// The text program's meaning, and the state that a byte buffer carries from burst to burst.
#![tactic(auto)]

use ledger::Row;

// The request of a line that asks something: words, the record that a release names, or the one that a trim names with the
// words to keep. A list's requests know no trim.
#[derive(Clone, Copy)]
pub enum LineRequest {
    Ask(u32),
    Give(Row),
    Cut(Row, u32),
}
