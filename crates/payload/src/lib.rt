// The words of the records in a sheet file that is accepted, rows and weights, written into a lent area.
#![tactic(auto)]

ghost use Rattle.std.specs.Prelude.{◌≡◌, ◌+◌, ◌≤◌, ◌<◌, length, get_or, map};
ghost use Rattle.definitions.specs.Sheet.{sheet_numbers};
ghost use Rattle.definitions.specs.File.{record_length, head_reading, file_words};
ghost use Rattle.definitions.specs.Questions.{pass};
ghost use Rattle.definitions.specs.Services.{filled};
ghost use Rattle.payload.specs.SheetFile.{SheetFile};

use rounding::Word;

// Where the payload of the first row starts: behind the head and six bytes of the row's own.
fn first_payload(bytes: &[u8]) -> usize
    requires { 6 + record_length bytes.now ≤ length bytes.now }
    ensures { result ≡ 12 + record_length bytes.now }
{
    records::record_end(bytes, 0) + 6
}

// Word k of a file that is accepted, record by record. Before it come k words, the eight bytes that each of k / n rows
// has of its own, and, if it stands in a row itself, that row's number; the weights have none.
fn word_of(bytes: &[u8], first: usize, n: usize, k: usize) -> u64
    requires { SheetFile bytes.now n × (first ≡ 12 + record_length bytes.now) × (k < length (file_words bytes.now)) }
    ensures { result ≡ get_or (file_words bytes.now) k 0 }
{
    let row = k / n;
    let at = first + 8 * (k + row);
    if row < n {
        return records::number_at(bytes, at + 2, 8);
    }
    records::number_at(bytes, at, 8)
}

// The numbers of a file that is accepted, as many as its sheet has, at the start of the area, each from its word.
pub fn fill<W: Word>(bytes: &[u8], reading: usize, n: usize, area: &mut [W])
    requires { SheetFile bytes.now n × (reading ≡ head_reading bytes.now) × (sheet_numbers reading n ≤ length area.old) }
    ensures { area.new ≡ filled pass (map W.of_word (file_words bytes.now)) area.old }
{
    let numbers = counts::numbers(reading, n);
    let first = first_payload(bytes);
    for (k, place) in area[..numbers].iter_mut().enumerate() {
        *place = W::from_word(word_of(bytes, first, n, k));
    }
}
