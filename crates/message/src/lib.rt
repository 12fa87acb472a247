// The nine messages as values, their SSZ bytes and the rules on them: the definitions that reading and writing meet.
#![tactic(auto)]

// A part of some bytes: where it starts, and its length.
#[derive(Clone, Copy, PartialEq, Eq)]
pub struct Part {
    pub start: usize,
    pub len: usize,
}

// The parts of some bytes that are records: the first `count` starts and lengths. Behind them stand zeros.
// Kept: the write calls take starts and lengths as two lists, since test write_edges hands in different numbers of them.
#[derive(Clone, Copy, PartialEq, Eq)]
pub struct Places {
    pub count: usize,
    pub starts: [usize; 32],
    pub lens: [usize; 32],
}

// A message that was read. Variable parts are places in the bytes read; a radius has its heaviest byte first.
#[derive(Clone, Copy, PartialEq, Eq)]
pub enum Reading {
    Ping {
        radius: [u8; 32],
    },
    Pong {
        radius: [u8; 32],
    },
    FindNode {
        distances: Part,
    },
    // How many messages to expect, and the records of this one.
    FoundNodes {
        total: u8,
        records: Places,
    },
    FindContent {
        key: Part,
    },
    FoundContent {
        connection: [u8; 4],
        records: Places,
        content: Part,
    },
    Offer {
        key: Part,
    },
    Accept {
        key: Part,
    },
    Store {
        connection: [u8; 4],
        content: Part,
    },
}
