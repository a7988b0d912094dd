// The stored forms of both engines: definitions and laws, and one struct of the segment pool's search.
#![tactic(auto)]

// Where a search stands, and how many places it has looked at.
#[derive(Clone, Copy)]
pub struct Steps {
    pub at: usize,
    pub places: usize,
}
