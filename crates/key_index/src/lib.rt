// The key index: a node id, a radius cap and the keys held, nearest first, in a flat array.
#![tactic(auto)]

ghost use Rattle.std.specs.Prelude.{◌≡◌, ◌≤◌, ◌/◌, length, take};
ghost use Rattle.refusal.specs.Outcome.{outcome_of};
ghost use Rattle.distance.specs.Distance.{xor_of};
ghost use Rattle.content_key.specs.Key.{key_id};
ghost use Rattle.key_index.specs.View.{key_limit, view_of, view, fresh_of, chunks, key_at};
ghost use Rattle.key_index.specs.Good.{good, radius_of};
ghost use Rattle.key_index.specs.Keys.{Each, NineBytes};
ghost use Rattle.key_index.specs.Search.{place_of};
ghost use Rattle.key_index.specs.Calls.{radius_for, holds_for};

use refusal::Refusal;

// How many keys an index lists at most.
pub const LIMIT: usize = 3000;

// The bytes of a key.
pub const WIDTH: usize = 9;

// The first `count` keys of the array are held, in order; all other bytes of it mean nothing.
// Kept: document 01 wants a flat array, and test index_edges hands in 3,001 keys, which no list type could hold.
#[derive(Clone, Copy, PartialEq, Eq)]
pub struct KeyIndex {
    pub node: [u8; 32],
    pub cap: [u8; 32],
    pub count: usize,
    pub keys: [u8; LIMIT * WIDTH],
}

impl KeyIndex {
    // An index with no keys.
    pub fn fresh(node: [u8; 32], cap: [u8; 32]) -> KeyIndex
        ensures { view result ≡ fresh_of node cap }
    {
        KeyIndex {
            node,
            cap,
            count: 0,
            keys: [0u8; LIMIT * WIDTH],
        }
    }

    // The announced radius.
    pub fn radius(&self) -> Result<[u8; 32], Refusal>
        ensures { outcome_of result ≡ radius_for key_limit (view self.now) }
    {
        if self.is_good() {
            Ok(self.reach())
        } else {
            Err(Refusal::BadState)
        }
    }

    // Whether any bytes are a key that is held.
    pub fn holds(&self, bytes: &[u8]) -> Result<bool, Refusal>
        ensures { outcome_of result ≡ holds_for key_limit (view self.now) bytes.now }
    {
        if !self.is_good() {
            return Err(Refusal::BadState);
        }
        let key = content_key::key(bytes)?;
        Ok(self.find(key).is_some())
    }

    // Whether the index keeps its rules.
    pub fn is_good(&self) -> bool
        ensures { result ≡ good key_limit (view self.now) }
    {
        is_good(self.node, self.cap, &self.keys, self.count)
    }

    // The radius of an index that keeps its rules: the cap, or the distance of the farthest key once the index is full.
    pub fn reach(&self) -> [u8; 32]
        ensures { self.now.count ≤ key_limit → result ≡ radius_of key_limit (view self.now) }
    {
        if self.count < LIMIT {
            return self.cap;
        }
        away(self.node, self.key_at(LIMIT - 1))
    }

    // The first place of a key that has these bytes.
    pub fn find(&self, key: [u8; 9]) -> Option<usize>
        ensures { result ≡ place_of key (view self.now).keys }
    {
        find(&self.keys, self.count, key)
    }

    // The key at a place of the array, and zeros past its end.
    pub fn key_at(&self, i: usize) -> [u8; 9]
        ensures { result ≡ key_at self.now.keys i }
    {
        key_at(&self.keys, i)
    }

    // The keys held, in order, and no more than the array has.
    pub fn held(&self) -> &[[u8; 9]]
        ensures keys { result.now ≡ take key_limit (view self.now).keys }
        ensures nine { Each NineBytes result.now }
    {
        held(&self.keys, self.count)
    }
}

// Whether an index with these parts keeps its rules, its keys the first `count` of an array; bytes past the array's end count as 0.
#[tactic(auto, using(crate::proofs::Scan::good_many, crate::proofs::Scan::turn_selector, crate::proofs::Scan::turn_order, crate::proofs::Scan::turn_cap, crate::proofs::Scan::turn_next))]
pub fn is_good(node: [u8; 32], cap: [u8; 32], keys: &[u8], count: usize) -> bool
    ensures { result ≡ good key_limit (view_of node cap keys.now count) }
{
    if LIMIT < count {
        return false;
    }
    let mut last = [0u8; 32];
    // Kept: the clause is about arrays of any length, and a key that the array does not have whole is in no slice of keys.
    for i in 0..count {
        let key = octets::part::<9>(keys, i * WIDTH);
        let far = away(node, key);
        if 1 < key[0] {
            return false;
        }
        if 0 < i && distance::at_most(far, last) {
            return false;
        }
        if !distance::at_most(far, cap) {
            return false;
        }
        last = far;
    }
    true
}

// The first place below `count` that has the bytes of a key.
pub fn find(keys: &[u8], count: usize, key: [u8; 9]) -> Option<usize>
    ensures { result ≡ place_of key (chunks count keys.now) }
{
    held(keys, count).iter().position(|held| key == *held)
}

// The key at a place of a flat array, and zeros where the array does not have all its nine bytes.
pub fn key_at(keys: &[u8], i: usize) -> [u8; 9]
    ensures { result ≡ key_at keys.now i }
{
    keys_in(keys).get(i).copied().unwrap_or([0u8; 9])
}

// The first `count` keys of a flat array, and no more than it has whole.
fn held(keys: &[u8], count: usize) -> &[[u8; 9]]
    ensures keys { result.now ≡ take (length keys.now / 9) (chunks count keys.now) }
    ensures nine { Each NineBytes result.now }
{
    let places = keys_in(keys);
    &places[..count.min(places.len())]
}

// The keys that a flat array has room for.
fn keys_in(bytes: &[u8]) -> &[[u8; 9]]
    ensures count { length result.now ≡ length bytes.now / 9 }
    ensures keys { result.now ≡ chunks (length bytes.now / 9) bytes.now }
    ensures nine { Each NineBytes result.now }
{
    let (keys, _) = bytes.as_chunks::<WIDTH>();
    keys
}

// The distance of a key from a node, as 32 bytes.
pub fn away(node: [u8; 32], key: [u8; 9]) -> [u8; 32]
    ensures { result ≡ xor_of node (key_id key) }
{
    distance::xor(node, content_key::id(key))
}
