// The calls that change a routing table: a node was seen, a node failed.
#![tactic(auto)]

mod changes;
mod failing;
mod seeing;

pub use failing::failed;
pub use seeing::seen;

// Where a node stands once it was seen.
#[derive(Clone, Copy, PartialEq, Eq)]
pub enum Standing {
    Entry,
    Replacement,
}

// What became of an entry that failed.
#[derive(Clone, Copy, PartialEq, Eq)]
pub enum Failure {
    // So many failures in a row, fewer than three.
    Counted(u8),
    // Three or more, and no replacement of its log distance.
    Flagged,
    // A replacement has its place now: the one with this id.
    Replaced([u8; 32]),
}
