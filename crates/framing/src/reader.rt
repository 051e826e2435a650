// The reader of line bits: what each line bit does to it, and what it says of a stretch.
ghost use Rattle.std.specs.Prelude.{◌≡◌, ◌-◌, map, length, take, IfOk, OnOk};
ghost use Rattle.framing.specs.Bytes.{bytes};
ghost use Rattle.framing.specs.Laws.{BurstLaw};
ghost use Rattle.framing.specs.Reading.{as_read, judged, reading};
ghost use Rattle.framing.specs.Stages.{judged_since, initial_state, kept_by, closed_by, aborted_by, received};

use crate::deletion::without_inserted;
use crate::outcome::{Stretch, Verdict};
use crate::packing::packed;
use std::alloc::{AllocError, Global};
use std::marker::Model;
use std::mem;

// All bits but the last 16, which are the check sequence, in bytes.
fn content(heap: Global, bits: &[bool]) -> Result<Vec<u8>, AllocError>
    ensures { IfOk result (λ v. v.items ≡ bytes (take (length bits.now - 16) bits.now)) }
{
    packed(heap, &bits[0..bits.len().saturating_sub(16)])
}

// What the reading says of the bits that zero deletion left.
#[tactic(auto, using(fcs::proofs::Fold::bits_of_bits))]
fn judge(heap: Global, bits: &[bool]) -> Result<Stretch, AllocError>
    ensures { IfOk result (λ v. as_read v ≡ judged bits.now) }
{
    Ok(Stretch {
        verdict: Verdict::of(bits.len(), fcs::matches(bits)),
        n: bits.len(),
        content: content(heap, bits)?,
    })
}

// The stretch that a flag ends: all bits since the flag before it but the seven of its own that have come.
fn judge_since(heap: Global, bits: &[bool]) -> Result<Stretch, AllocError>
    ensures { IfOk result (λ v. as_read v ≡ judged_since bits.now) }
{
    let end = bits.len().saturating_sub(7);
    let kept = without_inserted(heap, &bits[0..end])?;
    judge(heap, &kept)
}

// The 1s in a row that came last, at most seven; the bits since the latest flag, if one has ended and no abort since; and the stretches
// so far. Seven 1s stand for a start with no 0 yet too: neither a flag nor an abort that matters ends before the first 0.
// After an abort the memory of its bits waits, empty, for those after the next flag: given back and asked for anew at each abort, it made
// streams with many aborts a third slower.
#[derive(Drop)]
struct Reader {
    heap: Global,
    ones: u8,
    since: Option<Vec<bool>>,
    spare: Vec<bool>,
    found: Vec<Stretch>,
}

impl Model for Reader {
    ghost use Rattle.std.specs.Prelude.{◌≡◌, ◌≤◌, [], map, vec_items};
    ghost use Rattle.std.specs.Option.{option_map};
    ghost use Rattle.framing.specs.Reading.{as_read};
    ghost use Rattle.framing.specs.Stages.{ReaderState};

    ghost Value = { ReaderState };

    ghost view = { λ r. record { ones = r.ones; since = option_map vec_items r.since; found = map as_read r.found.items } };

    ghost invariant = { λ r. (r.ones ≤ 7) × (r.spare.items ≡ []) };
}

impl Reader {
    fn new(heap: Global) -> Reader
        ensures { result ≡ initial_state }
    {
        Reader {
            heap,
            ones: 7,
            since: None,
            spare: Vec::new(heap),
            found: Vec::new(heap),
        }
    }

    // A bit between flags is kept until its stretch ends; while no flag has come since the start or an abort, no bit is.
    fn keep(&mut self, bit: bool) -> Result<(), AllocError>
        ensures { OnOk result (self.new ≡ kept_by self.old bit) }
    {
        if let Some(bits) = &mut self.since {
            bits.push(bit)?;
        }
        Ok(())
    }

    // A flag ends the stretch since the flag before it, if there is one, and begins another.
    fn close(&mut self) -> Result<(), AllocError>
        ensures { OnOk result (self.new ≡ closed_by self.old) }
    {
        match &mut self.since {
            Some(bits) => {
                self.found.push(judge_since(self.heap, bits)?)?;
                bits.clear();
            }
            None => self.since = Some(mem::replace(&mut self.spare, Vec::new(self.heap))),
        }
        Ok(())
    }

    // An abort ends: what came since the latest flag is no part of any stretch.
    fn abort(&mut self)
        ensures { self.new ≡ aborted_by self.old }
    {
        if let Some(mut bits) = self.since.take() {
            bits.clear();
            self.spare = bits;
        }
    }

    // After six 1s another 1 ends an abort, and a 0 ends a flag. The count is set first, and each bit has arms of its own: a match on both
    // makes a loop that is a tenth slower.
    fn bit(&mut self, bit: bool) -> Result<(), AllocError>
        ensures { OnOk result (self.new ≡ received self.old bit) }
    {
        let before = self.ones;
        if bit {
            self.ones = (before + 1).min(7);
            match before {
                6 => self.abort(),
                _ => self.keep(true)?,
            }
        } else {
            self.ones = 0;
            match before {
                6 => self.close()?,
                _ => self.keep(false)?,
            }
        }
        Ok(())
    }
}

// Every stretch of the bits, the oldest first, in time linear in the number of bits.
pub fn read(heap: Global, bits: &[bool]) -> Result<Vec<Stretch>, AllocError>
    ensures stretches { IfOk result (λ v. map as_read v.items ≡ reading bits.now) }
    ensures bursts { BurstLaw }
{
    let mut reader = Reader::new(heap);
    for bit in bits {
        reader.bit(*bit)?;
    }
    Ok(reader.found)
}
