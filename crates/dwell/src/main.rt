// Reads a sheet file from standard input and writes its table, or why it is refused, as document 01
// says. All the work is in `report::dwell`.
#![tactic(auto)]

use std::io;

// Room for the longest text, a line and 1,024 entries of at most 23 bytes each.
const ROOM: usize = 32768;

// The input is read until its end, in whatever pieces it comes, or until the area is full: one byte more
// than the longest file.
fn main(rt: HostRuntime) -> io::Result<()> {
    let mut input = [0u8; file::MOST];
    let taken = full_reads::read_full(&mut rt.stdin(), &mut input)?;
    let mut text = [0u8; ROOM];
    let length = report::dwell(&input[..taken], &mut text);
    rt.write_all(&text[..length])
}
