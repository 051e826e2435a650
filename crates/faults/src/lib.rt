// What is wrong with what was typed, and where.
#![tactic(auto)]

ghost use Rattle.std.specs.Prelude.{◌≡◌, ◌/◌, ◌%◌, ◌<◌, IfOk, Some, string_bytes};
ghost use Rattle.faults.specs.declared.Fault.TheVariants.{Memory};
ghost use Rattle.faults.specs.Digits.{digit_glyph};
ghost use Rattle.faults.specs.Messages.{named, message, separator, complaint};

use std::alloc::{AllocError, AllocFailed, Global};
use std::error::Error;
use std::fmt;

// Words, characters, lines and columns are counted from 1. Hexadecimal words are counted after the command's name.
#[derive(Clone, Copy, PartialEq, Eq, Debug)]
pub enum Fault {
    EmptyWord {
        word: usize,
    },
    NoHexDigit {
        word: usize,
        character: usize,
        byte: u8,
    },
    OddDigits {
        word: usize,
    },
    NoBit {
        line: usize,
        column: usize,
        byte: u8,
    },
    UnknownCommand,
    NoFile,
    SecondFile,
    Memory,
}

impl From<AllocError> for Fault {
    ghost from_gives = { λ _ r. r ≡ Memory };

    fn from(_e: AllocError) -> Fault {
        Fault::Memory
    }
}

impl<T: Drop> From<AllocFailed<T>> for Fault {
    ghost from_gives = { λ _ r. r ≡ Memory };

    fn from(_e: AllocFailed<T>) -> Fault {
        Fault::Memory
    }
}

// The upper-case character of a hexadecimal digit.
fn digit_character(digit: u8) -> char
    requires { digit < 16 }
    ensures glyph { result ≡ digit_glyph digit }
    ensures ascii { result < 128 }
{
    let lower = char::from_digit(u32::from(digit), 16).unwrap();
    lower.to_ascii_uppercase()
}

// The two upper-case hexadecimal digits of a byte, the high one first. The one byte of a message is printed by `{:02X}`.
pub fn hex_digits(byte: u8) -> (char, char)
    ensures glyphs { result ≡ (digit_glyph (byte / 16), digit_glyph (byte % 16)) }
    ensures ascii { (result.0 < 128) × (result.1 < 128) }
{
    (digit_character(byte / 16), digit_character(byte % 16))
}

// A byte as a message names it: a visible ASCII character in quotes, or two hexadecimal digits.
#[derive(Clone, Copy)]
struct Named(u8);

impl fmt::Display for Named {
    ghost output = { λ n. Some (named n.0) };

    #[tactic(auto, using(crate::proofs::Printed::named_steps), unfolding(crate::specs::Messages::named))]
    fn fmt<W: fmt::Write>(&self, f: &mut fmt::Formatter<W>) -> fmt::Result {
        let byte = self.0;
        if byte.is_ascii_graphic() {
            let c = char::from(byte);
            write!(f, "'{c}'")
        } else {
            write!(f, "byte {byte:02X}")
        }
    }
}

// Written out, since a derived one would say nothing of the text to those who call it.
impl fmt::Display for Fault {
    ghost output = { λ fault. Some (message fault) };

    fn fmt<W: fmt::Write>(&self, f: &mut fmt::Formatter<W>) -> fmt::Result {
        match *self {
            Fault::EmptyWord { word } => write!(f, "word {word} is empty"),
            Fault::NoHexDigit {
                word,
                character,
                byte,
            } => {
                let what = Named(byte);
                write!(
                    f,
                    "word {word}, character {character}: {what} is no hexadecimal digit"
                )
            }
            Fault::OddDigits { word } => write!(f, "word {word} has an odd number of digits"),
            Fault::NoBit { line, column, byte } => {
                let what = Named(byte);
                write!(
                    f,
                    "line {line}, column {column}: {what} is no 0, 1 or white space"
                )
            }
            Fault::UnknownCommand => write!(f, "no such command: bench --help lists them"),
            Fault::NoFile => write!(f, "no file is named: name one, or - for standard input"),
            Fault::SecondFile => write!(f, "more than one file is named"),
            Fault::Memory => write!(f, "out of memory"),
        }
    }
}

impl Error for Fault {}

impl Fault {
    // What stands between the thing complained of and the message: a place in it follows, or not. It prints no fault, so it is no `Display`.
    fn separator(self) -> &'static str
        ensures { result.now ≡ separator self }
    {
        match self {
            Fault::EmptyWord { .. }
            | Fault::NoHexDigit { .. }
            | Fault::OddDigits { .. }
            | Fault::NoBit { .. } => ", ",
            Fault::UnknownCommand | Fault::NoFile | Fault::SecondFile | Fault::Memory => ": ",
        }
    }
}

// The line that tells of a fault in a file or a command.
pub fn complaint(heap: Global, about: &str, fault: Fault) -> Result<String, AllocError>
    ensures { IfOk result (λ s. string_bytes s ≡ complaint about.now fault) }
{
    let between = fault.separator();
    format!(in heap; "bench: {about}{between}{fault}")
}
