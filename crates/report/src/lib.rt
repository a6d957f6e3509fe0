// The text that dwell prints for the bytes of a sheet file, made as a whole in a lent buffer.
#![tactic(auto)]

ghost use Rattle.std.specs.Prelude.{◌≤◌, length};
ghost use Rattle.definitions.specs.Services.{table_answer};
ghost use Rattle.definitions.specs.File.{file_answer};
ghost use Rattle.definitions.specs.Dwell.{table_text, file_text, dwell_text};
ghost use Rattle.buffer.specs.Pasted.{AtStart};
ghost use Rattle.report.specs.Reported.{Reported};

use shape::sheets::Lent;

// The text for a sheet: its table is made in an area of its own.
fn table_text(sheet: Lent<'_>, out: &mut [u8]) -> usize
    requires { (sheet.n ≤ 32) × (32768 ≤ length out.old) }
    ensures { let sheet = sheet.entry in let numbers = sheet.numbers.now in
        AtStart (table_text sheet.reading sheet.n sheet.e numbers (table_answer sheet.reading sheet.n sheet.e numbers 1024)) out.old out.new result }
{
    let mut area = [0.0f64; 1024];
    let table = planner::whole_table(sheet, &mut area);
    text::answer_text(table, sheet.n, sheet.e, &area, out)
}

// The text for the bytes of a file, at the start of `out`; later bytes stay as they were. Returns
// the length of the text.
pub fn answer(bytes: &[u8], out: &mut [u8]) -> usize
    requires { 32768 ≤ length out.old }
    ensures { let bytes = bytes.entry.now in Reported (file_text bytes (file_answer bytes 1056)) out.old out.new result }
{
    let mut area = [0.0f64; 1056];
    match file::read(bytes, &mut area) {
        Ok(head) => {
            let places = counts::numbers(head.reading, head.n);
            let numbers = &area[..places];
            let sheet = Lent {
                reading: head.reading,
                n: head.n,
                e: head.e,
                numbers,
            };
            table_text(sheet, out)
        }
        Err(refusal) => {
            refusal::refused_text(refusal.question.into(), refusal.row, refusal.column, out)
        }
    }
}

// What dwell prints for an input of any length: the text for its first bytes, in the same way.
pub fn dwell(input: &[u8], out: &mut [u8]) -> usize
    requires { 32768 ≤ length out.old }
    ensures { Reported (dwell_text input.now) out.old out.new result }
{
    let most = file::judged(input.len());
    answer(&input[..most], out)
}
