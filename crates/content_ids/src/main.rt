// The key lister: reads lines of hexadecimal, one content key a line, and prints the content id of each, or why it is refused.
//
// What is printed for which line is decided in `key_lines`; here are the reads and the writes, in large blocks.
#![tactic(auto)]

ghost use Rattle.std.specs.Prelude.{◌≤◌, length};

use key_lines::Line;
use std::io;
use std::io::Read;

fn main(rt: HostRuntime) -> io::Result<()> {
    let mut input = [0u8; 65536];
    let mut out = [0u8; 65536];
    let line = list_input(&rt, &mut rt.reader(), &mut input, &mut out)?;
    let last = key_lines::last(line);
    rt.write_all(last.line())
}

// Lists the whole input, and hands back the line that it leaves unended. Nothing says that an input ends, so the loop has a limit, which
// no run reaches.
fn list_input(
    rt: &impl Print,
    reader: &mut impl Read,
    input: &mut [u8],
    out: &mut [u8],
) -> io::Result<Line>
    requires { 65 ≤ length out.old }
{
    let mut line = key_lines::fresh();
    for _ in 0..u64::MAX {
        let n = reader.read(input)?;
        if n == 0 {
            break;
        }
        line = list_block(rt, line, &input[..n], out)?;
    }
    Ok(line)
}

// Lists a block, and writes each time as much as the buffer takes.
fn list_block(rt: &impl Print, line: Line, block: &[u8], out: &mut [u8]) -> io::Result<Line>
    requires { 65 ≤ length out.old }
{
    let mut line = line;
    let mut rest = block;
    while !rest.is_empty() {
        let listed = key_lines::list(line, rest, out);
        rt.write_all(&out[..listed.written])?;
        line = listed.line;
        rest = &rest[listed.used..];
    }
    Ok(line)
}
