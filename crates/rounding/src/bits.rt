// The numbers of a sheet as 64-bit words, in which they stand in its file.

ghost use Rattle.std.specs.Prelude.{◌≡◌, ℕ};
ghost use Rattle.std.specs.Float.{binary64};
ghost use Rattle.std.specs.Float.Ieee.{of_bits, to_bits};

// What a sheet may hold for each number: the word itself, which keeps every bit, or the f64 of these bits.
pub trait Word: Copy {
    ghost of_word: { ℕ → Self };

    ghost word_of: { Self → ℕ };

    fn from_word(word: u64) -> Self
        ensures { result ≡ of_word word };

    fn to_word(self) -> u64
        ensures { result ≡ word_of self };
}

impl Word for u64 {
    ghost of_word = { λ word. word };

    ghost word_of = { λ word. word };

    fn from_word(word: u64) -> u64 {
        word
    }

    fn to_word(self) -> u64 {
        self
    }
}

impl Word for f64 {
    ghost of_word = { λ word. of_bits binary64 word };

    ghost word_of = { λ number. to_bits binary64 number };

    fn from_word(word: u64) -> f64 {
        crate::from_word(word)
    }

    fn to_word(self) -> u64 {
        crate::to_word(self)
    }
}
