// How many rows of n numbers a sheet has, how many numbers, and how many bytes its file: in reading 3 the weights are
// one row more (document 02, U10). A reading is the number that a caller hands over and no enum: what is promised holds for
// every number.
#![tactic(auto)]

ghost use Rattle.std.specs.Prelude.{◌≡◌, ◌≤◌};
ghost use Rattle.definitions.specs.File.{file_length};
ghost use Rattle.definitions.specs.Sheet.{sheet_rows, sheet_numbers};

#[tactic(auto, unfolding(definitions::specs::Sheet::sheet_rows))]
pub fn rows(reading: usize, n: usize) -> usize
    requires { n ≤ 32 }
    ensures { result ≡ sheet_rows reading n }
{
    if reading == 3 {
        return n + 1;
    }
    n
}

#[tactic(auto, unfolding(definitions::specs::Sheet::sheet_numbers))]
pub fn numbers(reading: usize, n: usize) -> usize
    requires { n ≤ 32 }
    ensures { result ≡ sheet_numbers reading n }
{
    if reading == 3 {
        return n * n + n;
    }
    n * n
}

#[tactic(auto, unfolding(definitions::specs::File::file_length, definitions::specs::File::head_length))]
pub fn file_bytes(reading: usize, n: usize) -> usize
    requires { n ≤ 32 }
    ensures { result ≡ file_length reading n }
{
    let rows = 12 + n * (8 + 8 * n);
    if reading == 3 {
        return rows + (6 + 8 * n);
    }
    rows
}
