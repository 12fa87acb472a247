// The root of an epoch's records, and the proof of each position.
#![tactic(auto)]

ghost use Rattle.std.specs.Prelude.{◌*◌, ◌<◌, ◌≤◌, ◌≡◌, true, length};
ghost use Rattle.refusal.specs.Buffer.{Writes};
ghost use Rattle.accumulator.specs.Tree.{tree_node, empty_node, beside};
ghost use Rattle.accumulator.specs.Records.{are_records, record_count, record_root, count_chunk, epoch_proof, flat, root_of, proof_of};

use refusal::Refusal;

// The bytes of a record: a block hash, and a total difficulty.
const RECORD: usize = 64;

// The bytes of a proof: 15 siblings.
const PROOF: usize = 480;

// Writes the root of the records at the start of a buffer. Nothing is written on a refusal.
pub fn root(records: &[u8], out: &mut [u8]) -> Result<usize, Refusal>
    ensures { Writes (root_of records.now (length out.old)) result out.old out.new }
{
    if !are_records(records) {
        return Err(Refusal::InputLength);
    }
    if out.len() < 32 {
        return Err(Refusal::ShortBuffer);
    }
    let tree = node(records, 13, 0);
    let count = count_chunk(records);
    let root = accumulator::parent(tree, count);
    octets::put(&root, out, 0);
    Ok(32)
}

// Writes the 15 siblings of the block hash at a position at the start of a buffer. Nothing is written on a refusal.
pub fn proof(records: &[u8], position: u64, out: &mut [u8]) -> Result<usize, Refusal>
    ensures { Writes (proof_of records.now position (length out.old)) result out.old out.new }
{
    if !are_records(records) {
        return Err(Refusal::InputLength);
    }
    let count = (records.len() / RECORD) as u64;
    if count <= position {
        return Err(Refusal::NoSuchPlace);
    }
    if out.len() < PROOF {
        return Err(Refusal::ShortBuffer);
    }
    let siblings = siblings(records, position as usize);
    octets::put(siblings.as_flattened(), out, 0);
    Ok(PROOF)
}

// Whether the bytes are 1 to 8,192 records.
#[tactic(auto, using(std::proofs::lemmas::Bool::Decides::nat_tests), unfolding(accumulator::specs::Records::are_records))]
fn are_records(records: &[u8]) -> bool
    ensures { result ≡ are_records records.now }
{
    let size = records.len();
    RECORD <= size && size <= 8192 * RECORD && size % RECORD == 0
}

// The siblings of the block hash at a position, the lowest first.
fn siblings(records: &[u8], position: usize) -> [[u8; 32]; 15]
    requires records_value { are_records records.now ≡ true }
    requires position_bound { position < record_count records.now }
    ensures { result ≡ epoch_proof records.now position }
{
    let mut out = [[0u8; 32]; 15];
    out[0] = octets::part::<32>(records, RECORD * position + 32);
    let mut place = position;
    for height in 0..13 {
        out[height + 1] = node(records, height, beside(place));
        place = place / 2;
    }
    out[14] = count_chunk(records);
    out
}

// The place of a sibling.
#[tactic(auto, using(std::proofs::lemmas::Bool::Decides::nat_tests), unfolding(accumulator::specs::Tree::beside))]
fn beside(place: usize) -> usize
    requires { place < 8192 }
    ensures { result ≡ beside place }
{
    if place % 2 == 0 { place + 1 } else { place - 1 }
}

// The node of a height at a place, over the records' roots. What is all zeros is not visited.
fn node(records: &[u8], height: usize, place: usize) -> [u8; 32]
    requires records_value { are_records records.now ≡ true }
    requires height_bound { height ≤ 13 }
    ensures { result ≡ tree_node (record_root records.now) height place }
{
    if height == 0 {
        return record_root(records, place);
    }
    let last = records.len() / RECORD - 1;
    if last >> height < place {
        return empty_node(height);
    }
    let left = node(records, height - 1, 2 * place);
    let right = node(records, height - 1, 2 * place + 1);
    accumulator::parent(left, right)
}

// The root of the record at a position, and zeros behind the last.
fn record_root(records: &[u8], position: usize) -> [u8; 32]
    ensures { result ≡ record_root records.now position }
{
    match records.as_chunks::<RECORD>().0.get(position) {
        Some(record) => sha256::hash(record),
        None => [0u8; 32],
    }
}

// The node of a height over zeros only.
fn empty_node(height: usize) -> [u8; 32]
    ensures { result ≡ empty_node height }
{
    let mut node = [0u8; 32];
    for _ in 0..height {
        let above = accumulator::parent(node, node);
        node = above;
    }
    node
}

// The number of records as a chunk.
fn count_chunk(records: &[u8]) -> [u8; 32]
    requires { are_records records.now ≡ true }
    ensures { result ≡ count_chunk records.now }
{
    let [low, high] = ((records.len() / RECORD) as u16).to_le_bytes();
    let mut chunk = [0u8; 32];
    chunk[0] = low;
    chunk[1] = high;
    chunk
}
