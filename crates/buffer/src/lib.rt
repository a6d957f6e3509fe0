// Bytes written one after another into a lent buffer; every other byte stays as it was.
#![tactic(auto)]

ghost use Rattle.std.specs.Prelude.{[], ◌∷◌};
ghost use Rattle.buffer.specs.Pasted.{Room, Written};

// The place is that of the next byte. It holds a `&mut`, so it is not `Copy`.
#[derive(Drop)]
pub struct Writer<'a> {
    pub out: &'a mut [u8],
    pub at: usize,
}

// Every writing needs room for all that it writes.
impl Writer<'_> {
    pub fn put_byte(&mut self, byte: u8)
        requires { Room (byte ∷ []) self.old }
        ensures { Written (byte ∷ []) self.old self.new }
    {
        self.out[self.at] = byte;
        self.at += 1;
    }

    pub fn put_bytes(&mut self, bytes: &[u8])
        requires { Room bytes.now self.old }
        ensures { Written bytes.now self.old self.new }
    {
        let next = self.at + bytes.len();
        self.out[self.at..next].copy_from_slice(bytes);
        self.at = next;
    }
}
