// Bits as text of 0 and 1.
ghost use Rattle.std.specs.Prelude.{◌≡◌, ◌+◌, ◌^◌, ◌<◌, IfOk, vec_items, string_bytes};
ghost use Rattle.faults.specs.Answers.{Answers};
ghost use Rattle.notation.specs.Bits.{character_taken, bits_read, bit_glyph, bit_text, ReadBack};

use faults::Fault;
use std::alloc::{AllocError, Global};

// The lines before a character, and the characters before it in its line.
#[derive(Clone, Copy, Default)]
struct Place {
    lines: usize,
    columns: usize,
}

// The bits of a text as far as it is read, and the place of the next character. The bits are lent, since beside them in one struct the place
// would stay in memory in the loop of `parse_bits`, which is slower. No model: behind one, the end of the loan would not tell what the bits are.
#[derive(Drop)]
struct BitReader<'a> {
    at: Place,
    bits: &'a mut Vec<bool>,
}

impl<'a> BitReader<'a> {
    // Takes the next character in.
    fn take(&mut self, byte: u8) -> Result<(), Fault>
        requires { (self.old.at.lines + 1 < 2 ^ 64) × (self.old.at.columns + 1 < 2 ^ 64) }
        ensures read { Answers (λ _. (self.new.at, self.new.bits.now.items)) result
            (character_taken (self.old.at, self.old.bits.now.items) byte) }
        ensures same { self.new.bits.ghost_name ≡ self.old.bits.ghost_name }
    {
        match byte {
            b'0' => self.bits.push(false)?,
            b'1' => self.bits.push(true)?,
            b' ' | b'\t' | b'\r' => (),
            b'\n' => {
                self.at = Place {
                    lines: self.at.lines + 1,
                    columns: 0,
                };
                return Ok(());
            }
            _ => {
                return Err(Fault::NoBit {
                    line: self.at.lines + 1,
                    column: self.at.columns + 1,
                    byte,
                });
            }
        }
        self.at.columns += 1;
        Ok(())
    }
}

// The bits of a text of 0 and 1, in which white space does not count.
#[tactic(auto, using(crate::proofs::Texts::text_steps))]
pub fn parse_bits(heap: Global, text: &[u8]) -> Result<Vec<bool>, Fault>
    ensures { Answers vec_items result (bits_read text.now) }
{
    let mut bits = Vec::new(heap);
    let mut reader = BitReader {
        at: Place::default(),
        bits: &mut bits,
    };
    for byte in text {
        reader.take(*byte)?;
    }
    Ok(bits)
}

// Bits as a text of 0 and 1, which is read as these bits. By `char::from_digit` it would take a number and an `unwrap`.
#[tactic(auto, using(crate::proofs::Back::bits_back, crate::proofs::Glyphs::glyphs_encoded))]
pub fn bit_text(heap: Global, bits: &[bool]) -> Result<String, AllocError>
    ensures text { IfOk result (λ s. string_bytes s ≡ bit_text bits.now) }
    ensures read_back { ReadBack }
{
    bits.iter()
        .map(|bit| if *bit { '1' } else { '0' })
        .collect(heap)
}
