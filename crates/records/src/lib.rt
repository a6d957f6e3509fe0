// Records of a file (document 01, "The sheet file"): a 4-byte length of the payload, a 2-byte kind, the payload,
// all little-endian.
#![tactic(auto)]

ghost use Rattle.std.specs.Prelude.{◌≡◌, ◌++◌, ◌+◌, ◌≤◌, ◌<◌, length, drop};
ghost use Rattle.std.specs.Int.Signed.{mag};
ghost use Rattle.definitions.specs.File.{little, signed, record_length, whole_record};
ghost use Rattle.definitions.specs.Saving as saving;
ghost use Rattle.definitions.specs.Saving.{little_bytes};
ghost use Rattle.buffer.specs.Pasted.{Room, Written};

use buffer::Writer;

// The number in the `width` bytes from `at` on, little-endian; the bytes above them are zeros.
pub fn number_at(bytes: &[u8], at: usize, width: usize) -> u64
    requires { (width ≤ 8) × (at + width ≤ length bytes.now) }
    ensures { result ≡ little width (drop at bytes.now) }
{
    let mut word = [0; 8];
    word[..width].copy_from_slice(&bytes[at..at + width]);
    u64::from_le_bytes(word)
}

// The same for a length, a kind, a reading, a number of stages or a row number.
pub fn field_at(bytes: &[u8], at: usize, width: usize) -> usize
    requires { (width ≤ 8) × (at + width ≤ length bytes.now) }
    ensures { result ≡ little width (drop at bytes.now) }
{
    number_at(bytes, at, width) as usize
}

// The signed number in the two bytes from `at` on, in two's complement.
pub fn signed_at(bytes: &[u8], at: usize) -> i64
    requires { at + 2 ≤ length bytes.now }
    ensures { result ≡ signed (little 2 (drop at bytes.now)) }
{
    i64::from(i16::from_le_bytes([bytes[at], bytes[at + 1]]))
}

// The two bytes of a signed number, as the number that `put_number` writes.
#[tactic(auto, unfolding(definitions::specs::Saving::complement))]
pub fn complement(number: i64) -> u64
    requires { mag number < 32768 }
    ensures { result ≡ saving.complement number }
{
    u64::from((number as i16).cast_unsigned())
}

// Question 11, of the record that starts at `at`.
#[tactic(auto, unfolding(definitions::specs::File::whole_record, definitions::specs::File::record_length))]
pub fn is_whole(bytes: &[u8], at: usize) -> bool
    requires { at ≤ length bytes.now }
    ensures { result ≡ whole_record (drop at bytes.now) }
{
    let left = bytes.len() - at;
    if left < 6 {
        return false;
    }
    field_at(bytes, at, 4) <= left - 6
}

// Where the record that starts at `at`, and that the file holds whole, ends.
#[tactic(auto, unfolding(definitions::specs::File::record_length))]
pub fn record_end(bytes: &[u8], at: usize) -> usize
    requires { at + (6 + record_length (drop at bytes.now)) ≤ length bytes.now }
    ensures { result ≡ at + (6 + record_length (drop at bytes.now)) }
{
    at + (6 + field_at(bytes, at, 4))
}

// Writes a number in `width` bytes, little-endian; byte by byte, since the width may be above eight.
pub fn put_number(number: u64, width: usize, out: &mut Writer<'_>)
    requires { Room (little_bytes width number) out.old }
    ensures { Written (little_bytes width number) out.old out.new }
{
    let mut rest = number;
    for _ in 0..width {
        out.put_byte((rest % 256) as u8);
        rest /= 256;
    }
}

// Writes what stands before a payload: its length and the kind of its record.
pub fn put_header(length: usize, kind: usize, out: &mut Writer<'_>)
    requires { Room (little_bytes 4 length ++ little_bytes 2 kind) out.old }
    ensures { Written (little_bytes 4 length ++ little_bytes 2 kind) out.old out.new }
{
    put_number(length as u64, 4, out);
    put_number(kind as u64, 2, out);
}
