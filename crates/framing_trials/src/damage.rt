// Frames with bits flipped on the line: none may be read as good with as many bits as were sent.
use crate::counts::Counts;
use crate::frames;
use framing::Verdict;
use std::alloc::{AllocError, Global};

// Bits in a row, each of which can be flipped.
trait Bits {
    fn bits(&self) -> usize;

    // Flips the bit at the place, if there is one.
    fn flip(&mut self, place: usize);
}

impl Bits for Vec<bool> {
    fn bits(&self) -> usize {
        self.len()
    }

    fn flip(&mut self, place: usize) {
        if let Some(bit) = self.get_mut(place) {
            *bit = !*bit;
        }
    }
}

// Bit 0 of each byte first.
impl Bits for Vec<u8> {
    fn bits(&self) -> usize {
        self.len().saturating_mul(8)
    }

    fn flip(&mut self, place: usize) {
        if let Some(byte) = self.get_mut(place / 8) {
            *byte ^= 1u8 << (place % 8);
        }
    }
}

// Which of up to sixteen neighbouring bits are flipped: the first and the last always, those between by the shape.
#[derive(Clone, Copy)]
struct Burst {
    width: usize,
    shape: u16,
}

const ONE_BIT: Burst = Burst { width: 1, shape: 0 };

const SHAPES: [u16; 4] = [0x0000, 0xFFFF, 0x5555, 0x9B26];

impl Burst {
    fn flips(self, at: usize) -> bool {
        at == 0 || at == self.width.saturating_sub(1) || (self.shape >> (at % 16)) & 1 == 1
    }

    // Flips its bits from the place on. Twice is not at all.
    fn flip<B: Bits>(self, bits: &mut B, place: usize) {
        for at in (0..self.width).filter(|at| self.flips(*at)) {
            bits.flip(place.saturating_add(at));
        }
    }

    // The burst at every place of the bits, one at a time; counts with how many of them `good` answers true.
    fn everywhere<B: Bits, F: Fn(&B) -> Result<bool, AllocError>>(
        self,
        bits: &mut B,
        counts: &mut Counts,
        good: F,
    ) -> Result<(), AllocError>
        requires { F.IsAlwaysCallable good }
    {
        // by places, since bits in bytes cannot be gone over
        for place in 0..bits.bits().saturating_sub(self.width.saturating_sub(1)) {
            self.flip(bits, place);
            counts.count(good(bits)?);
            self.flip(bits, place);
        }
        Ok(())
    }
}

// The bursts of each shape, from this many bits to sixteen.
fn bursts_from(heap: Global, narrowest: usize) -> Result<Vec<Burst>, AllocError> {
    let mut bursts = Vec::new(heap);
    for width in narrowest..=16 {
        for shape in SHAPES {
            bursts.push(Burst { width, shape })?;
        }
    }
    Ok(bursts)
}

const LENGTHS: [usize; 4] = [2, 3, 6, 11];

fn has_good(heap: Global, line: &[bool], n: usize) -> Result<bool, AllocError> {
    let stretches = framing::read(heap, line)?;
    Ok(stretches.iter().any(|stretch| stretch.verdict == Verdict::Good && stretch.n == n))
}

// The frames with nothing flipped, so that a reading that finds nothing good anywhere would show.
pub(crate) fn none(heap: Global) -> Result<Counts, AllocError> {
    let mut counts = Counts::default();
    for bytes in frames::of_lengths(heap, 2..frames::LONGEST / 2)? {
        let line = framing::encode(heap, &bytes)?;
        counts.count(has_good(heap, &line, frames::sent_bits(&bytes))?);
    }
    Ok(counts)
}

// Every burst at every place of the frames' line bits, flags included.
fn on_lines(heap: Global, frames: &[Vec<u8>], bursts: &[Burst]) -> Result<Counts, AllocError> {
    let mut counts = Counts::default();
    for bytes in frames {
        let mut line = framing::encode(heap, bytes)?;
        let sent = frames::sent_bits(bytes);
        for burst in bursts {
            burst.everywhere(&mut line, &mut counts, |line| has_good(heap, line, sent))?;
        }
    }
    Ok(counts)
}

// Every single bit of the line flipped.
pub(crate) fn single_bits(heap: Global) -> Result<Counts, AllocError> {
    let frames = frames::of_lengths(heap, 2..frames::LONGEST / 2)?;
    on_lines(heap, &frames, &[ONE_BIT])
}

// Every burst of two to sixteen bits of some shapes, at every place.
pub(crate) fn bursts(heap: Global) -> Result<Counts, AllocError> {
    let frames = frames::of_lengths(heap, LENGTHS.iter().copied())?;
    on_lines(heap, &frames, &bursts_from(heap, 2)?)
}

// Bytes with their check sequence, and bursts in these: none may match.
pub(crate) fn bytes(heap: Global) -> Result<Counts, AllocError> {
    let mut counts = Counts::default();
    for mut list in frames::of_lengths(heap, LENGTHS.iter().copied())? {
        let check = fcs::fcs_check_sequence(&list);
        list.extend_from_slice(&check.to_le_bytes())?;
        for burst in bursts_from(heap, 1)? {
            burst.everywhere(&mut list, &mut counts, |list| Ok(fcs::fcs_matches(list)))?;
        }
    }
    Ok(counts)
}
