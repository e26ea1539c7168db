//! What programs read and print: the beginning of an input, the place in it where reading goes on, and a word in hexadecimal.
//! Stands on nothing here.
#![tactic(auto)]

ghost use Rattle.std.specs.Prelude.{◌≡◌, length};
ghost use Rattle.std.specs.Str.Parse.{digits_value};
ghost use Rattle.text.specs.Hex.{hex_word};

pub mod cursors;
pub mod inputs;

pub use cursors::Cursor;
pub use inputs::{MOST_BYTES, read_input};
use std::fmt;

/// A word that prints as 16 hexadecimal digits, lower case and highest first.
#[derive(Clone, Copy, PartialEq, Eq, Debug)]
pub struct Hex {
    pub word: u64,
}

impl Hex {
    /// The word to be printed; its digits read back as that word.
    #[tactic(auto, using(crate::proofs::HexFacts::hex_word_length, crate::proofs::HexFacts::hex_word_reads))]
    pub fn new(word: u64) -> Hex
        ensures word { result.word ≡ word }
        ensures digits { length (hex_word result.word) ≡ 16 }
        ensures reads { digits_value 16 (hex_word result.word) ≡ word }
    {
        Hex { word }
    }
}

impl fmt::Display for Hex {
    ghost use Rattle.std.specs.Prelude.{Some};
    ghost use Rattle.text.specs.Hex.{hex_word};

    ghost output = { λ h. Some (hex_word h.word) };

    #[tactic(auto, using(crate::proofs::HexFacts::padded_word))]
    fn fmt<W: fmt::Write>(&self, f: &mut fmt::Formatter<W>) -> fmt::Result {
        let word = self.word;
        write!(f, "{word:016x}")
    }
}
