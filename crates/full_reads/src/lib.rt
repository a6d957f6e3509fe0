// Reading until a lent area is full, or until the input ends.
#![tactic(auto)]

ghost use Rattle.std.specs.Prelude.{◌<◌, ◌≤◌, IfOk, length, take};
ghost use Rattle.std.specs.Io.KnownBytes.{Consumes, IsAtEnd};

use std::io;
use std::io::Read;

// The input comes in whatever pieces it may; returns how many bytes came, which stand first in the area. Fewer
// than it has places are the last ones of the input.
pub fn read_full<R: Read>(input: &mut R, area: &mut [u8]) -> io::Result<usize>
    ensures within { IfOk result (λ taken. taken ≤ length area.new) }
    ensures bytes { IfOk result (λ taken. Consumes (R.remaining input.old) (R.remaining input.new) (take taken area.new)) }
    ensures end { IfOk result (λ taken. taken < length area.new → IsAtEnd (R.remaining input.new)) }
{
    let mut taken = 0;
    // Not by place: each turn takes as many bytes as come.
    while taken < area.len() {
        let more = input.read(&mut area[taken..])?;
        if more == 0 {
            return Ok(taken);
        }
        taken += more;
    }
    Ok(taken)
}
