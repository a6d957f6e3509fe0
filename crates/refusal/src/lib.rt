// The line that dwell prints for a refusal (document 01, "The sheet file").
#![tactic(auto)]

ghost use Rattle.std.specs.Prelude.{◌≤◌, length};
ghost use Rattle.definitions.specs.Dwell.{refused_line};
ghost use Rattle.buffer.specs.Pasted.{AtStart};

use buffer::Writer;

// The line, whichever number a caller gives it, at the start of `out`; later bytes stay as they were. Returns its length.
pub fn refused_text(number: usize, row: usize, column: usize, out: &mut [u8]) -> usize
    requires { 32768 ≤ length out.old }
    ensures { AtStart (refused_line number row column) out.old out.new result }
{
    let mut line = Writer { out, at: 0 };
    line.put_bytes(b"refused ");
    digits::put_field(number, b' ', &mut line);
    digits::put_field(row, b' ', &mut line);
    digits::put_field(column, b'\n', &mut line);
    line.at
}
