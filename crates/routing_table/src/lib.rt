// The routing table: whom the node has met, around its own id; its types and rules, a fresh one, and the look-up of an id.
#![tactic(auto)]

mod rules;
mod scans;
mod surveys;

ghost use Rattle.std.specs.Prelude.{◌≡◌};
ghost use Rattle.routing_table.specs.View.{view, fresh_of};
ghost use Rattle.routing_table.specs.Survey.{Sized, survey_of};
ghost use Rattle.routing_table.specs.Find.{meaning_of, find_of};

use refusal::Refusal;
pub use rules::record_fits;

// How many entries a table has at most.
pub const ENTRIES: usize = 128;

// How many of them may have one log distance.
pub const ENTRIES_EACH: usize = 16;

// How many replacements a table has at most.
pub const REPLACEMENTS: usize = 16;

// How many of them may have one log distance.
pub const REPLACEMENTS_EACH: usize = 4;

// How far the failures of an entry are counted.
pub const FAILURES: u8 = 3;

// How many bytes a node record has at most.
pub const RECORD: usize = 300;

// A node that was seen: its id, its radius, its IPv4 address, its port and its node record, which is the first `len` bytes of `enr`. The
// bytes behind them mean nothing.
// Kept: test routing_edges hands in records of 301 bytes and of the largest length, which no list type could hold.
#[derive(Clone, Copy, PartialEq, Eq)]
pub struct Contact {
    pub id: [u8; 32],
    pub radius: [u8; 32],
    pub address: [u8; 4],
    pub port: u16,
    pub len: usize,
    pub enr: [u8; RECORD],
}

// A contact, and how often it failed since it was last seen or became an entry, counted up to three.
#[derive(Clone, Copy, PartialEq, Eq)]
pub struct Entry {
    pub contact: Contact,
    pub failures: u8,
}

// The node's own id; the first `count` entries, in an order that means nothing; the first `waiting` replacements, longest unseen first.
// What stands in other places means nothing.
// Kept: test routing_edges hands in 129 entries and the largest counts, which no list type could hold.
#[derive(Clone, Copy, PartialEq, Eq)]
pub struct RoutingTable {
    pub own: [u8; 32],
    pub count: usize,
    pub entries: [Entry; ENTRIES],
    pub waiting: usize,
    pub replacements: [Contact; REPLACEMENTS],
}

// What a call wants to know of an id in a table that keeps its rules. Places are counted from 0.
#[derive(Clone, Copy, PartialEq, Eq)]
pub struct Facts {
    // The id is our own.
    pub own: bool,
    // The places of the entry and of the replacement with this id.
    pub entry: Option<usize>,
    pub replacement: Option<usize>,
    // How many entries and replacements have the id's log distance.
    pub entries: usize,
    pub replacements: usize,
    // The places of the longest unseen and of the most recently seen replacement of the id's log distance.
    pub oldest: Option<usize>,
    pub newest: Option<usize>,
}

// How an id stands in a table, where it does.
#[derive(Clone, Copy, PartialEq, Eq)]
pub enum Found {
    Entry(Entry),
    Replacement(Contact),
}

impl RoutingTable {
    // A table with no entries and no replacements.
    #[tactic(auto, unfolding(crate::specs::View::firsts))]
    pub fn fresh(own: [u8; 32]) -> RoutingTable
        ensures { view result ≡ fresh_of own }
    {
        let blank = Contact {
            id: [0; 32],
            radius: [0; 32],
            address: [0; 4],
            port: 0,
            len: 0,
            enr: [0; RECORD],
        };
        let entry = Entry {
            contact: blank,
            failures: 0,
        };
        RoutingTable {
            own,
            count: 0,
            entries: [entry; ENTRIES],
            waiting: 0,
            replacements: [blank; REPLACEMENTS],
        }
    }

    // How an id stands in the table, with its fields.
    pub fn find(&self, id: [u8; 32]) -> Result<Option<Found>, Refusal>
        ensures { meaning_of result ≡ find_of (view self.now) id }
    {
        let Some(told) = self.survey(id) else {
            return Err(Refusal::BadState);
        };
        if let Some(at) = told.entry {
            return Ok(Some(Found::Entry(self.entries[at])));
        }
        if let Some(at) = told.replacement {
            return Ok(Some(Found::Replacement(self.replacements[at])));
        }
        Ok(None)
    }

    // What a call wants to know of the table and an id; none where the table breaks its rules. The clause `arrays` says what the type
    // does, for callers that change the table.
    pub fn survey(&self, id: [u8; 32]) -> Option<Facts>
        ensures facts { result ≡ survey_of (view self.now) id }
        ensures arrays { Sized self.now }
    {
        let entries = self.entries.get(..self.count)?;
        let replacements = self.replacements.get(..self.waiting)?;
        surveys::surveyed(self.own, entries, replacements, id)
    }
}
