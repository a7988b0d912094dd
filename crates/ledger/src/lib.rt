// Records in the table, over the unit rule.
#![tactic(auto)]

// A record: ticket, address in words, words asked, party.
#[derive(Clone, Copy, PartialEq, Eq)]
pub struct Row {
    pub ticket: u32,
    pub address: u32,
    pub words: u32,
    pub party: u32,
}

// The unit rule: words to a unit, and words of a block before its address.
#[derive(Clone, Copy, PartialEq, Eq)]
pub struct Rule {
    pub unit: u32,
    pub lead: u32,
}
