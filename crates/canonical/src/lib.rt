// The verdict on a block hash: whether its proof leads to the root of the block's epoch.
#![tactic(auto)]

ghost use Rattle.std.specs.Prelude.{◌<◌, ◌≡◌, length};
ghost use Rattle.refusal.specs.Outcome.{outcome_of};
ghost use Rattle.accumulator.specs.Tree.{joined, root_along};
ghost use Rattle.accumulator.specs.Verdict.{chunks_of, lengths_good, canonical_of};

use refusal::Refusal;

// Whether the hash of the block of this number is canonical: the root computed from it and the 15 siblings of its proof is the one that is
// lent for its epoch.
pub fn canonical(number: u64, hash: &[u8], proof: &[u8], roots: &[u8]) -> Result<bool, Refusal>
    ensures { outcome_of result ≡ canonical_of number hash.now proof.now roots.now }
{
    if !lengths_good(hash, proof, roots) {
        return Err(Refusal::InputLength);
    }
    let epoch = number / 8192;
    let epochs = (roots.len() / 32) as u64;
    if epochs <= epoch {
        return Err(Refusal::NoSuchPlace);
    }
    let leaf = octets::part::<32>(hash, 0);
    let computed = root_along(32768 + 2 * (number % 8192), leaf, proof);
    let wanted = octets::part::<32>(roots, 32 * epoch as usize);
    Ok(octets::same(&computed, &wanted))
}

// Whether the lengths are right: a hash, 15 siblings, at most 2,048 whole roots.
#[tactic(auto, using(std::proofs::lemmas::Bool::Decides::nat_tests), unfolding(accumulator::specs::Verdict::lengths_good))]
fn lengths_good(hash: &[u8], proof: &[u8], roots: &[u8]) -> bool
    ensures { result ≡ lengths_good hash.now proof.now roots.now }
{
    hash.len() == 32 && proof.len() == 480 && roots.len() <= 65536 && roots.len() % 32 == 0
}

// The root computed from a node of this generalized index and the 15 siblings of a proof.
fn root_along(index: u64, leaf: [u8; 32], proof: &[u8]) -> [u8; 32]
    requires { length proof.now ≡ 480 }
    ensures { result ≡ root_along index leaf (chunks_of 15 proof.now) }
{
    let mut node = leaf;
    let mut index = index;
    for sibling in proof.as_chunks::<32>().0 {
        let above = joined(index, node, *sibling);
        node = above;
        index = index / 2;
    }
    node
}

// A node joined with its sibling.
fn joined(index: u64, node: [u8; 32], sibling: [u8; 32]) -> [u8; 32]
    ensures { result ≡ joined index node sibling }
{
    if index % 2 == 0 {
        accumulator::parent(node, sibling)
    } else {
        accumulator::parent(sibling, node)
    }
}
