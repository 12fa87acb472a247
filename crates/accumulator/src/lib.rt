// Epoch accumulators and the verdict on a block hash: what they are, the laws between them, and the node over two nodes.
#![tactic(auto)]

ghost use Rattle.std.specs.Prelude.{◌≡◌};
ghost use Rattle.accumulator.specs.Tree.{parent};

// The node over two nodes: the hash of the one and then the other.
pub fn parent(left: [u8; 32], right: [u8; 32]) -> [u8; 32]
    ensures { result ≡ parent left right }
{
    sha256::hash([left, right].as_flattened())
}
