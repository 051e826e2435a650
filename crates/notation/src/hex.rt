// Bytes as hexadecimal words.
ghost use Rattle.std.specs.Prelude.{◌≡◌, ◌∷◌, ◌+◌, ◌^◌, ◌<◌, ◌*◌, ◌≤◌, map, length, take, IfOk, Some, None, vec_items, string_bytes, OnOk, IsAscii};
ghost use Rattle.std.specs.List.{flat_map};
ghost use Rattle.faults.specs.Answers.{Answers};
ghost use Rattle.faults.specs.Digits.{hex_pair};
ghost use Rattle.notation.specs.Hex.{digit_value, with_digit, word_ended, characters_read, word_read, words_read, hex_text, sequence_text, ReadBack};

use faults::{Fault, hex_digits};
use std::alloc::{AllocError, AllocFailed, Global};
use std::fmt;
use std::marker::Model;

// The value of a hexadecimal digit.
#[derive(Drop)]
struct Digit(u8);

impl Model for Digit {
    ghost use Rattle.std.specs.Prelude.{ℕ, ◌<◌};

    ghost Value = { ℕ };

    ghost view = { λ d. d.0 };

    ghost invariant = { λ d. d.0 < 16 };
}

impl Digit {
    // The value of a character, of either case, if it is a digit.
    fn of(byte: u8) -> Option<Digit>
        ensures { result ≡ digit_value byte }
    {
        let value = char::from(byte).to_digit(16)?;
        Some(Digit(value as u8))
    }
}

// What is read of a word so far: the high digit of a byte whose low digit is to come, and the bytes, those of the words before it too.
#[derive(Drop)]
struct WordReader {
    waiting: Option<Digit>,
    bytes: Vec<u8>,
}

impl Model for WordReader {
    ghost use Rattle.notation.specs.Hex.{Sofar};

    ghost Value = { Sofar };

    ghost view = { λ r. (r.waiting, r.bytes.items) };
}

impl WordReader {
    // Takes the next digit in: a low one ends a byte.
    fn take(&mut self, digit: Digit) -> Result<(), AllocFailed<u8>>
        ensures { OnOk result (self.new ≡ with_digit self.old.0 self.old.1 digit) }
    {
        match self.waiting.take() {
            None => self.waiting = Some(digit),
            Some(high) => self.bytes.push(high.0 * 16 + digit.0)?,
        }
        Ok(())
    }

    // The bytes, after the last character of the word: no digit may wait then.
    fn end(self, word: usize) -> Result<Vec<u8>, Fault>
        ensures { Answers vec_items result (word_ended word self) }
    {
        match self.waiting {
            None => Ok(self.bytes),
            Some(_) => Err(Fault::OddDigits { word }),
        }
    }
}

// Puts the bytes of the word at a place, counted from 0, after those that are there.
#[tactic(auto, using(crate::proofs::Words::digit_steps))]
fn read_word(bytes: Vec<u8>, place: usize, word: &[u8]) -> Result<Vec<u8>, Fault>
    requires { place + 1 < 2 ^ 64 }
    ensures { Answers vec_items result (word_read place bytes.items word.now) }
{
    if word.is_empty() {
        return Err(Fault::EmptyWord { word: place + 1 });
    }
    let mut reader = WordReader {
        waiting: None,
        bytes,
    };
    for (i, c) in word.iter().enumerate() {
        let Some(digit) = Digit::of(*c) else {
            return Err(Fault::NoHexDigit {
                word: place + 1,
                character: i + 1,
                byte: *c,
            });
        };
        reader.take(digit)?;
    }
    reader.end(place + 1)
}

// The bytes that hexadecimal words give. No words give no bytes.
#[tactic(auto, using(crate::proofs::Words::word_steps))]
pub fn parse_hex(heap: Global, words: &[String]) -> Result<Vec<u8>, Fault>
    ensures { Answers vec_items result (words_read (map string_bytes words.now)) }
{
    let mut bytes = Vec::new(heap);
    for (i, word) in words.iter().enumerate() {
        bytes = read_word(bytes, i, word.as_bytes())?;
    }
    Ok(bytes)
}

// The two digits of a byte, as the bytes of a text.
fn pair(byte: u8) -> [u8; 2]
    ensures digits { result ≡ hex_pair byte }
    ensures ascii { IsAscii result }
{
    let (high, low) = hex_digits(byte);
    [high as u8, low as u8]
}

// ASCII bytes as a text.
#[tactic(auto, using(crate::proofs::Pairs::ascii_text))]
fn as_text(bytes: &[u8]) -> &str
    requires { IsAscii bytes.now }
    ensures { result.now ≡ bytes.now }
{
    str::from_utf8(bytes).unwrap()
}

// How many bytes are written with one call. By `{:02X}` for each byte, `bench check` of many bytes took 1.7 times as long.
const TOGETHER: usize = 16;

// At most so many bytes, each as a blank and two digits, in the front of a text that is long enough for the most.
#[tactic(auto, using(crate::proofs::Pairs::filling_steps))]
fn after_blanks(bytes: &[u8]) -> [u8; 3 * TOGETHER]
    requires { length bytes.now ≤ 16 }
    ensures text { take (3 * length bytes.now) result ≡ flat_map (λ byte. 32 ∷ hex_pair byte) bytes.now }
    ensures ascii { IsAscii result }
{
    let mut text = [0; 3 * TOGETHER];
    for (i, byte) in bytes.iter().enumerate() {
        let [high, low] = pair(*byte);
        text[3 * i] = b' ';
        text[3 * i + 1] = high;
        text[3 * i + 2] = low;
    }
    text
}

// Bytes that are printed as upper-case hexadecimal pairs with a blank between two.
#[derive(Clone, Copy)]
pub struct HexWords<'a>(pub &'a [u8]);

impl fmt::Display for HexWords<'_> {
    ghost output = { λ words. Some (hex_text words.0.now) };

    #[tactic(auto, using(crate::proofs::Pairs::writing_steps))]
    fn fmt<W: fmt::Write>(&self, f: &mut fmt::Formatter<W>) -> fmt::Result {
        let bytes = self.0;
        let [first, rest @ ..] = bytes else {
            return Ok(());
        };
        f.write_str(as_text(&pair(*first)))?;
        for some in rest.chunks(TOGETHER) {
            let text = after_blanks(some);
            f.write_str(as_text(&text[..3 * some.len()]))?;
        }
        Ok(())
    }
}

// Bytes as upper-case hexadecimal pairs with a blank between two, which as words are read as these bytes.
#[tactic(auto, using(crate::proofs::Back::hex_back))]
pub fn hex_text(heap: Global, bytes: &[u8]) -> Result<String, AllocError>
    ensures text { IfOk result (λ s. string_bytes s ≡ hex_text bytes.now) }
    ensures read_back { ReadBack }
{
    let words = HexWords(bytes);
    format!(in heap; "{words}")
}

// A check sequence that is printed as four upper-case hexadecimal digits.
#[derive(Clone, Copy)]
pub struct SequenceWord(pub u16);

impl fmt::Display for SequenceWord {
    ghost output = { λ word. Some (sequence_text word.0) };

    fn fmt<W: fmt::Write>(&self, f: &mut fmt::Formatter<W>) -> fmt::Result {
        let [low, high] = self.0.to_le_bytes();
        let [a, b] = pair(high);
        let [c, d] = pair(low);
        f.write_str(as_text(&[a, b, c, d]))
    }
}

// A check sequence as four upper-case hexadecimal digits.
pub fn sequence_text(heap: Global, sequence: u16) -> Result<String, AllocError>
    ensures { IfOk result (λ s. string_bytes s ≡ sequence_text sequence) }
{
    let word = SequenceWord(sequence);
    format!(in heap; "{word}")
}
