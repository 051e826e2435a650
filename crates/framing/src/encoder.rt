// The line bits of a frame under construction: zero insertion, and the parts of a frame in the order in which they are sent.
ghost use Rattle.std.specs.Prelude.{◌≡◌, ◌++◌, IfOk, OnOk};
ghost use Rattle.fcs.specs.Fcs.{low_bits, byte_bits};
ghost use Rattle.framing.specs.Insertion.{frame_bits};
ghost use Rattle.framing.specs.Laws.{ReadBack, InsertionUndone};
ghost use Rattle.framing.specs.Reading.{flag_bits};
ghost use Rattle.framing.specs.Stages.{sent_bit, sent};

use crate::run::Run;
use std::alloc::{AllocError, Global};

// A flag: six 1s between two 0s.
const FLAG: [bool; 8] = [false, true, true, true, true, true, true, false];

// A bit of 1 is the fifth in a row, and a 0 follows it, where four came before.
impl Run<4> {
    // A flag goes out as it is: zero insertion has no part in it.
    fn flag(&mut self) -> Result<(), AllocError>
        ensures bits { OnOk result (self.new.bits ≡ self.old.bits ++ flag_bits) }
        ensures run { self.new.run ≡ self.old.run }
    {
        self.bits.extend_from_slice(&FLAG)
    }

    // A content bit, and a 0 after the fifth 1 in a row.
    fn bit(&mut self, bit: bool) -> Result<(), AllocError>
        ensures { OnOk result (self.new ≡ sent_bit self.old bit) }
    {
        self.bits.push(bit)?;
        if !bit {
            self.run = 0;
        } else if self.run == 4 {
            self.bits.push(false)?;
            self.run = 0;
        } else {
            self.run += 1;
        }
        Ok(())
    }

    // The lowest `width` bits of a number, bit 0 first.
    #[tactic(auto, using(crate::proofs::Lines::low_bits_more, crate::proofs::Lines::low_bits_none))]
    fn low_bits(&mut self, value: u16, width: u8) -> Result<(), AllocError>
        ensures { OnOk result (self.new ≡ sent (low_bits width value) self.old) }
    {
        let mut rest = value;
        for _k in 0..width {
            self.bit(rest % 2 == 1)?;
            rest /= 2;
        }
        Ok(())
    }

    // Bytes, bit 0 of each first.
    #[tactic(auto, using(crate::proofs::Lines::bytes_more, crate::proofs::Lines::bytes_none))]
    fn bytes(&mut self, bytes: &[u8]) -> Result<(), AllocError>
        ensures { OnOk result (self.new ≡ sent (byte_bits bytes.now) self.old) }
    {
        for byte in bytes {
            self.low_bits(u16::from(*byte), 8)?;
        }
        Ok(())
    }
}

// The line bits of one frame of these bytes, from its opening to its closing flag: between the flags stand the bytes and their check
// sequence, bit 0 of each byte and of the sequence first, after zero insertion. The reading of these bits gives the bytes back.
#[tactic(auto, using(crate::proofs::Lines::frame_is, crate::proofs::Framed::sent_back, crate::proofs::Undone::insertion_undone))]
pub fn encode(heap: Global, bytes: &[u8]) -> Result<Vec<bool>, AllocError>
    ensures bits { IfOk result (λ v. v.items ≡ frame_bits bytes.now) }
    ensures read_back { IfOk result (λ v. ReadBack bytes.now v.items) }
    ensures undone { InsertionUndone }
{
    let mut line = Run::<4>::new(heap);
    line.flag()?;
    line.bytes(bytes)?;
    line.low_bits(fcs::fcs_check_sequence(bytes), 16)?;
    line.flag()?;
    Ok(line.bits)
}
