// The fixed parts of the messages: what stands before the first variable part.
ghost use Rattle.std.specs.Prelude.{◌+◌, ◌≤◌, ◌<◌, ◌≡◌, ◌++◌, ◌∷◌};
ghost use Rattle.message.specs.Encode.{offset};

// What stands before the distances in FindNode, and before the key in a message of one: a type, and the offset of the rest.
pub(crate) fn rest_head(kind: u8) -> [u8; 5]
    ensures { result ≡ kind ∷ offset 4 }
{
    [kind, 4, 0, 0, 0]
}

// What stands before the records in FoundNodes.
pub(crate) fn nodes_head(total: u8) -> [u8; 6]
    ensures { result ≡ 4 ∷ total ∷ offset 5 }
{
    [4, total, 5, 0, 0, 0]
}

// What stands before the content in Store.
pub(crate) fn store_head(connection: [u8; 4]) -> [u8; 9]
    ensures { result ≡ 9 ∷ (connection ++ offset 8) }
{
    let [a, b, c, d] = connection;
    [9, a, b, c, d, 8, 0, 0, 0]
}

// What stands before the records in FoundContent, where their list has this size.
pub(crate) fn content_head(connection: [u8; 4], size: usize) -> [u8; 13]
    requires { size ≤ 9728 }
    ensures { result ≡ 6 ∷ (connection ++ offset 12 ++ offset (12 + size)) }
{
    let [a, b, c, d] = connection;
    let [e, f, g, h] = offset_bytes(12 + size);
    [6, a, b, c, d, 12, 0, 0, 0, e, f, g, h]
}

// An offset: four bytes, lightest first.
pub(crate) fn offset_bytes(n: usize) -> [u8; 4]
    requires { n < 4294967296 }
    ensures { result ≡ offset n }
{
    (n as u32).to_le_bytes()
}
