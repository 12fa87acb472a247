// Prints SHA-256 hashes, one a line: of the messages that FIPS 180-4 and its examples publish, then of every length up to 1,100, and
// of those from 9 below to 9 above each multiple of 64 from there up to 16,384.
#![tactic(auto)]

use std::io;

// As many bytes as the longest message has, but for the million.
const LONGEST: usize = 16393;

fn main(rt: HostRuntime) -> io::Result<()> {
    show(&rt, b"")?;
    show(&rt, b"abc")?;
    show(
        &rt,
        b"abcdbcdecdefdefgefghfghighijhijkijkljklmklmnlmnomnopnopq",
    )?;
    show(
        &rt,
        b"abcdefghbcdefghicdefghijdefghijkefghijklfghijklmghijklmnhijklmnoijklmnopjklmnopqklmnopqrlmnopqrsmnopqrstnopqrstu",
    )?;
    let million = million();
    show(&rt, &million)?;
    let bytes = by_place();
    show_lengths(&rt, &bytes, 0, 1101)?;
    show_edges(&rt, &bytes)
}

fn million() -> [u8; 1000000] {
    [97u8; 1000000]
}

// Bytes that differ by their place.
fn by_place() -> [u8; LONGEST] {
    let mut bytes = [0u8; LONGEST];
    for (i, byte) in bytes.iter_mut().enumerate() {
        *byte = ((7 * i + i / 256) % 256) as u8;
    }
    bytes
}

fn show_edges(rt: &impl Print, bytes: &[u8]) -> io::Result<()> {
    for k in 18..257usize {
        show_lengths(rt, bytes, 64 * k - 9, 64 * k + 10)?;
    }
    Ok(())
}

// The hashes of the messages of these lengths, the last one excluded.
fn show_lengths(rt: &impl Print, bytes: &[u8], from: usize, to: usize) -> io::Result<()> {
    for n in from..to {
        show_first(rt, bytes, n)?;
    }
    Ok(())
}

fn show_first(rt: &impl Print, bytes: &[u8], n: usize) -> io::Result<()> {
    if n <= bytes.len() {
        show(rt, &bytes[..n])
    } else {
        Ok(())
    }
}

fn show(rt: &impl Print, message: &[u8]) -> io::Result<()> {
    let hash = sha256::hash(message);
    let mut line = [0u8; 65];
    hexadecimal::encode(&hash, &mut line, 0);
    line[64] = b'\n';
    rt.write_all(&line)
}
