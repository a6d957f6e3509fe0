// Decimal numbers, with and without a sign, written into a lent buffer.
#![tactic(auto)]

ghost use Rattle.std.specs.Prelude.{[], ◌∷◌, ◌++◌};
ghost use Rattle.definitions.specs.Dwell.{decimal, integer};
ghost use Rattle.buffer.specs.Pasted.{Room, Written};

use buffer::Writer;
use itoa::{Buffer, Integer};

// The text of a number, and the byte that ends its field.
fn put_text<I: Integer>(value: I, end: u8, out: &mut Writer<'_>)
    requires { Room (I.text value ++ (end ∷ [])) out.old }
    ensures { Written (I.text value ++ (end ∷ [])) out.old out.new }
{
    let mut digits = Buffer::new();
    out.put_bytes(digits.format(value).as_bytes());
    out.put_byte(end);
}

// A number and the byte that ends its field.
#[tactic(auto, using(crate::proofs::Digits::decimal_is))]
pub fn put_field(value: usize, end: u8, out: &mut Writer<'_>)
    requires { Room (decimal value ++ (end ∷ [])) out.old }
    ensures { Written (decimal value ++ (end ∷ [])) out.old out.new }
{
    put_text::<usize>(value, end, out);
}

// The same for a signed number, with a minus sign where it is negative.
#[tactic(auto, using(crate::proofs::Integers::integer_is))]
pub fn put_integer(value: i64, end: u8, out: &mut Writer<'_>)
    requires { Room (integer value ++ (end ∷ [])) out.old }
    ensures { Written (integer value ++ (end ∷ [])) out.old out.new }
{
    put_text::<i64>(value, end, out);
}
