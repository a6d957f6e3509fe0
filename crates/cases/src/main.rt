// Runs the services on cases from standard input, and writes for each what was answered and what the lent area
// holds afterwards. A case is its length in four little-endian bytes and then so many bytes: a letter for the
// call, 64-bit words for its numbers, and the bytes of a file where it takes one. expected.py writes the cases.
#![tactic(auto)]

ghost use Rattle.std.specs.Prelude.{◌≤◌, length};

use answers::{Head, Refusal};
use rounding::Word;
use std::io;
use std::io::Read;

// No case is longer.
const LONGEST: usize = 16384;

// More numbers than a sheet or a table has.
const PLACES: usize = 1100;

// More bytes than the longest file has.
const BYTES: usize = 8800;

// Room for the longest text.
const ROOM: usize = 32768;

fn write_text(rt: &impl Print, text: &[u8]) -> io::Result<()> {
    rt.write_all(text)
}

fn write_count(rt: &impl Print, count: usize) -> io::Result<()> {
    print!(rt; " {count}")
}

fn write_signed(rt: &impl Print, number: i64) -> io::Result<()> {
    print!(rt; " {number}")
}

fn write_word(rt: &impl Print, word: u64) -> io::Result<()> {
    print!(rt; " {word:016x}")
}

// The number, row and column of a refusal, 0 each where there is none.
fn write_refusal(rt: &impl Print, number: usize, row: usize, column: usize) -> io::Result<()> {
    write_count(rt, number)?;
    write_count(rt, row)?;
    write_count(rt, column)
}

// Each number by its bits; every NaN has the same ones.
fn write_area<W: Word>(rt: &impl Print, area: &[W]) -> io::Result<()> {
    for number in area {
        write_word(rt, number.to_word())?;
    }
    write_text(rt, b"\n")
}

fn write_bytes(rt: &impl Print, area: &[u8]) -> io::Result<()> {
    write_text(rt, b" ")?;
    for byte in area {
        print!(rt; "{byte:02x}")?;
    }
    write_text(rt, b"\n")
}

// Word k behind the letter of a case, and 0 where the case is shorter.
fn word(case: &[u8], k: usize) -> u64
    requires { k ≤ 2048 }
{
    let at = 1 + 8 * k;
    if case.len() < at + 8 {
        return 0;
    }
    records::number_at(case, at, 8)
}

fn count(case: &[u8], k: usize) -> usize
    requires { k ≤ 2048 }
{
    word(case, k) as usize
}

// The same word as a signed number, whose two's complement it is.
fn signed(case: &[u8], k: usize) -> i64
    requires { k ≤ 2048 }
{
    word(case, k).cast_signed()
}

// The numbers behind the first `from` words of a case; returns how many there are.
fn numbers<W: Word>(case: &[u8], from: usize, sheet: &mut [W]) -> usize
    requires { (from ≤ 5) × (length sheet.old ≤ 1100) }
    ensures { result ≤ length sheet.old }
{
    let given = sheet.len().min((case.len() / 8).saturating_sub(from));
    for (k, number) in sheet[..given].iter_mut().enumerate() {
        *number = W::from_word(word(case, from + k));
    }
    given
}

// What a table, a column or prices answer, and every number of the area.
fn write_filled(
    rt: &impl Print,
    number: usize,
    row: usize,
    column: usize,
    allowance: usize,
    area: &[f64],
) -> io::Result<()> {
    write_refusal(rt, number, row, column)?;
    if number == 0 {
        write_count(rt, allowance)?;
    }
    write_area(rt, area)
}

// t: reading, n, e, the length of the answer area, and the sheet's numbers.
fn try_table(
    rt: &impl Print,
    reading: usize,
    n: usize,
    e: i64,
    sheet: &[f64],
    area: &mut [f64],
) -> io::Result<()> {
    let mut allowance = 0;
    let mut row = 0;
    let mut column = 0;
    let number = table_calls::table(
        reading,
        n,
        e,
        sheet,
        area,
        &mut allowance,
        &mut row,
        &mut column,
    );
    write_filled(rt, number, row, column, allowance, area)
}

fn run_table(rt: &impl Print, case: &[u8]) -> io::Result<()> {
    let mut sheet = [0.0; PLACES];
    let given = numbers(case, 4, &mut sheet);
    let mut area = [0.5; PLACES];
    let room = count(case, 3).min(PLACES);
    try_table(
        rt,
        count(case, 0),
        count(case, 1),
        signed(case, 2),
        &sheet[..given],
        &mut area[..room],
    )
}

// c: reading, n, e, the length of the answer area, the stage, and the sheet's numbers.
fn try_column(
    rt: &impl Print,
    reading: usize,
    n: usize,
    e: i64,
    sheet: &[f64],
    stage: usize,
    area: &mut [f64],
) -> io::Result<()> {
    let mut allowance = 0;
    let mut row = 0;
    let mut column = 0;
    let number = table_calls::column(
        reading,
        n,
        e,
        sheet,
        stage,
        area,
        &mut allowance,
        &mut row,
        &mut column,
    );
    write_filled(rt, number, row, column, allowance, area)
}

fn run_column(rt: &impl Print, case: &[u8]) -> io::Result<()> {
    let mut sheet = [0.0; PLACES];
    let given = numbers(case, 5, &mut sheet);
    let mut area = [0.5; PLACES];
    let room = count(case, 3).min(PLACES);
    try_column(
        rt,
        count(case, 0),
        count(case, 1),
        signed(case, 2),
        &sheet[..given],
        count(case, 4),
        &mut area[..room],
    )
}

// p: reading, n, e, the length of the answer area, the number of prices, the prices, and the sheet's numbers.
fn try_prices(
    rt: &impl Print,
    reading: usize,
    n: usize,
    e: i64,
    all: &[f64],
    priced: usize,
    area: &mut [f64],
) -> io::Result<()> {
    let from = priced.min(all.len());
    let mut allowance = 0;
    let mut row = 0;
    let mut column = 0;
    let number = table_calls::prices(
        reading,
        n,
        e,
        &all[from..],
        &all[..from],
        area,
        &mut allowance,
        &mut row,
        &mut column,
    );
    write_filled(rt, number, row, column, allowance, area)
}

fn run_prices(rt: &impl Print, case: &[u8]) -> io::Result<()> {
    let mut all = [0.0; PLACES];
    let given = numbers(case, 5, &mut all);
    let mut area = [0.5; PLACES];
    let room = count(case, 3).min(PLACES);
    try_prices(
        rt,
        count(case, 0),
        count(case, 1),
        signed(case, 2),
        &all[..given],
        count(case, 4),
        &mut area[..room],
    )
}

fn try_entry(
    rt: &impl Print,
    reading: usize,
    n: usize,
    e: i64,
    sheet: &[f64],
    i: usize,
    j: usize,
) -> io::Result<()> {
    let mut seconds = 0.0;
    let mut row = 0;
    let mut column = 0;
    let number = table_calls::entry(
        reading,
        n,
        e,
        sheet,
        i,
        j,
        &mut seconds,
        &mut row,
        &mut column,
    );
    write_refusal(rt, number, row, column)?;
    if number == 0 {
        write_word(rt, rounding::to_word(seconds))?;
    }
    write_text(rt, b"\n")
}

// e: reading, n, e, the two stages, and the sheet's numbers.
fn run_entry(rt: &impl Print, case: &[u8]) -> io::Result<()> {
    let mut sheet = [0.0; PLACES];
    let given = numbers(case, 5, &mut sheet);
    try_entry(
        rt,
        count(case, 0),
        count(case, 1),
        signed(case, 2),
        &sheet[..given],
        count(case, 3),
        count(case, 4),
    )
}

// a: reading, n, e and the sheet's numbers; all 32 × 32 entries, each by itself.
fn run_entries(rt: &impl Print, case: &[u8]) -> io::Result<()> {
    let mut sheet = [0.0; PLACES];
    let given = numbers(case, 3, &mut sheet);
    for k in 0..1024 {
        try_entry(
            rt,
            count(case, 0),
            count(case, 1),
            signed(case, 2),
            &sheet[..given],
            k / 32 + 1,
            k % 32 + 1,
        )?;
    }
    Ok(())
}

fn write_head(rt: &impl Print, head: Result<Head, Refusal>) -> io::Result<()> {
    let mut reading = 0;
    let mut n = 0;
    let mut e = 0;
    let mut row = 0;
    let mut column = 0;
    let number = out_places::hand_head(head, &mut reading, &mut n, &mut e, &mut row, &mut column);
    write_refusal(rt, number, row, column)?;
    if number == 0 {
        write_count(rt, reading)?;
        write_count(rt, n)?;
        write_signed(rt, e)?;
    }
    Ok(())
}

fn read_file<W: Word>(rt: &impl Print, bytes: &[u8], area: &mut [W]) -> io::Result<()> {
    write_head(rt, file::read(bytes, area))?;
    write_area(rt, area)
}

// f: the length of the area, and a file, which is read as words and as numbers.
fn run_file(rt: &impl Print, case: &[u8]) -> io::Result<()> {
    let room = count(case, 0).min(40);
    let from = case.len().min(9);
    let mut words = [101u64; 40];
    read_file(rt, &case[from..], &mut words[..room])?;
    let mut numbers = [0.5; 40];
    read_file(rt, &case[from..], &mut numbers[..room])
}

fn write_saved(rt: &impl Print, saved: Result<usize, Refusal>) -> io::Result<usize> {
    let mut length = 0;
    let mut row = 0;
    let mut column = 0;
    let number = out_places::hand(saved, &mut length, &mut row, &mut column);
    write_refusal(rt, number, row, column)?;
    if number == 0 {
        write_count(rt, length)?;
    }
    Ok(length)
}

// What is saved is loaded again.
fn save_sheet<W: Word>(
    rt: &impl Print,
    reading: usize,
    n: usize,
    e: i64,
    sheet: &[W],
    area: &mut [u8],
    again: &mut [W],
) -> io::Result<()> {
    let length = write_saved(rt, file::save(reading, n, e, sheet, area))?;
    write_bytes(rt, area)?;
    let room = sheet.len().min(again.len());
    read_file(rt, &area[..length.min(area.len())], &mut again[..room])
}

// s and n: reading, n, e, the number of bytes lent, and the sheet's numbers, as words or as f64.
fn run_save<W: Word>(
    rt: &impl Print,
    case: &[u8],
    sheet: &mut [W],
    again: &mut [W],
) -> io::Result<()>
    requires { length sheet.old ≤ 1100 }
{
    let given = numbers(case, 4, sheet);
    let mut area = [7u8; BYTES];
    let room = count(case, 3).min(BYTES);
    save_sheet(
        rt,
        count(case, 0),
        count(case, 1),
        signed(case, 2),
        &sheet[..given],
        &mut area[..room],
        again,
    )
}

// The areas stand here and not in `run_case`, which would take their room for every case.
fn run_save_words(rt: &impl Print, case: &[u8]) -> io::Result<()> {
    let mut sheet = [0u64; PLACES];
    let mut again = [101u64; PLACES];
    run_save(rt, case, &mut sheet, &mut again)
}

fn run_save_numbers(rt: &impl Print, case: &[u8]) -> io::Result<()> {
    let mut sheet = [0.0; PLACES];
    let mut again = [0.5; PLACES];
    run_save(rt, case, &mut sheet, &mut again)
}

// m: reading, n, e, the length of the second area, k, and the sheet's numbers.
fn try_move(
    rt: &impl Print,
    reading: usize,
    n: usize,
    e: i64,
    sheet: &[f64],
    k: i64,
    area: &mut [f64],
) -> io::Result<()> {
    let mut unit = 0;
    let mut row = 0;
    let mut column = 0;
    let number = move_calls::move_sheet(
        reading,
        n,
        e,
        sheet,
        k,
        area,
        &mut unit,
        &mut row,
        &mut column,
    );
    write_refusal(rt, number, row, column)?;
    if number == 0 {
        write_signed(rt, unit)?;
    }
    write_area(rt, area)
}

fn run_move(rt: &impl Print, case: &[u8]) -> io::Result<()> {
    let mut sheet = [0.0; PLACES];
    let given = numbers(case, 5, &mut sheet);
    let mut area = [0.5; PLACES];
    let room = count(case, 3).min(PLACES);
    try_move(
        rt,
        count(case, 0),
        count(case, 1),
        signed(case, 2),
        &sheet[..given],
        signed(case, 4),
        &mut area[..room],
    )
}

// d: the input of dwell.
fn run_dwell(rt: &impl Print, case: &[u8]) -> io::Result<()> {
    let from = case.len().min(1);
    let mut text = [0u8; ROOM];
    let length = report::dwell(&case[from..], &mut text);
    write_text(rt, &text[..length])
}

fn run_case(rt: &impl Print, case: &[u8]) -> io::Result<()> {
    let Some(call) = case.first() else {
        return Ok(());
    };
    match *call {
        b't' => run_table(rt, case),
        b'c' => run_column(rt, case),
        b'p' => run_prices(rt, case),
        b'e' => run_entry(rt, case),
        b'a' => run_entries(rt, case),
        b'f' => run_file(rt, case),
        b's' => run_save_words(rt, case),
        b'n' => run_save_numbers(rt, case),
        b'm' => run_move(rt, case),
        _ => run_dwell(rt, case),
    }
}

// The length before the next case; none where the input ends.
fn next_length(input: &mut impl Read) -> io::Result<Option<usize>> {
    let mut bytes = [0u8; 4];
    if full_reads::read_full(input, &mut bytes)? < 4 {
        return Ok(None);
    }
    Ok(Some(records::field_at(&bytes, 0, 4)))
}

// Reads a case into the whole of `case` and runs it; whether it came whole.
fn read_case(rt: &impl Print, input: &mut impl Read, case: &mut [u8]) -> io::Result<bool> {
    let taken = full_reads::read_full(input, case)?;
    run_case(rt, &case[..taken])?;
    Ok(taken == case.len())
}

// One case, and whether there was one.
fn next_case(rt: &impl Print, input: &mut impl Read) -> io::Result<bool> {
    let Some(length) = next_length(input)? else {
        return Ok(false);
    };
    if length > LONGEST {
        return Ok(false);
    }
    let mut case = [0u8; LONGEST];
    read_case(rt, input, &mut case[..length])
}

// Nothing says that the input ends, so the loop has as many turns as no run uses up.
fn main(rt: HostRuntime) -> io::Result<()> {
    let mut input = rt.stdin();
    for _ in 0..u64::MAX {
        if !next_case(&rt, &mut input)? {
            break;
        }
    }
    Ok(())
}
