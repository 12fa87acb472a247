// A door for benches in other languages: calls on headers, each as it stands.
#![tactic(auto)]

// Puts the SHA-256 hash of a message at the start of a buffer of 32 bytes or more.
#[unsafe(no_mangle)]
pub extern "C" fn headers_hash(message: &[u8], out: &mut [u8]) {
    let hash = sha256::hash(message);
    octets::put(&hash, out, 0);
}

// Puts the root of an epoch's records at the start of a buffer, and answers how many bytes were put, 0 for a refusal.
#[unsafe(no_mangle)]
pub extern "C" fn headers_root(records: &[u8], out: &mut [u8]) -> usize {
    epoch_tree::root(records, out).unwrap_or(0)
}

// The same for the proof of a position.
#[unsafe(no_mangle)]
pub extern "C" fn headers_proof(records: &[u8], position: u64, out: &mut [u8]) -> usize {
    epoch_tree::proof(records, position, out).unwrap_or(0)
}
