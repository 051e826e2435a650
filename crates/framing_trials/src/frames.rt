// Frames of every length from 0 to 40, with contents that force zero insertion, sent and read back.
ghost use Rattle.std.specs.Iterator.{IsFinite};

use crate::counts::Counts;
use framing::Verdict;
use std::alloc::{AllocError, Global};
use std::iter;

// What the bytes of a frame are.
#[derive(Clone, Copy)]
pub(crate) enum Content {
    // one byte throughout
    Same(u8),
    // two bytes in turn
    Turns(u8, u8),
    // each byte from the one before it
    Mixed(u8),
}

pub(crate) const CONTENTS: [Content; 9] = [
    Content::Same(0xFF),
    Content::Same(0x7E),
    Content::Same(0x1F),
    Content::Same(0xF8),
    Content::Same(0x00),
    Content::Turns(0xF8, 0x1F),
    Content::Turns(0x7E, 0xFF),
    Content::Mixed(1),
    Content::Mixed(77),
];

pub(crate) const LONGEST: usize = 40;

fn mixed(byte: u8) -> u8 {
    byte.wrapping_mul(181).wrapping_add(59)
}

impl Content {
    // `length` bytes of this content.
    pub(crate) fn bytes(self, heap: Global, length: usize) -> Result<Vec<u8>, AllocError> {
        match self {
            Content::Same(byte) => vec![in heap; byte; length],
            Content::Turns(even, odd) => (0..length)
                .map(|i| if i % 2 == 0 { even } else { odd })
                .collect(heap),
            Content::Mixed(seed) => iter::successors(Some(mixed(seed)), |byte| Some(mixed(*byte)))
                .take(length)
                .collect(heap),
        }
    }
}

// The bytes of a frame of each content at each of these lengths.
pub(crate) fn of_lengths<I: Iterator<Item = usize> + Drop>(
    heap: Global,
    lengths: I,
) -> Result<Vec<Vec<u8>>, AllocError>
    requires can { I.can_next lengths }
    requires ends { IsFinite (I.remaining lengths) }
{
    let mut frames = Vec::new(heap);
    for length in lengths {
        for content in CONTENTS {
            frames.push(content.bytes(heap, length)?)?;
        }
    }
    Ok(frames)
}

// How many bits of a frame zero deletion leaves: eight for each byte, and sixteen of the check sequence.
pub(crate) fn sent_bits(bytes: &[u8]) -> usize {
    bytes.len().saturating_mul(8).saturating_add(16)
}

// Sends each frame and reads it back: how many there are, and how many are not read as they should be.
pub(crate) fn read_back(heap: Global) -> Result<Counts, AllocError> {
    let mut counts = Counts::default();
    for bytes in of_lengths(heap, 0..=LONGEST)? {
        counts.count(!reads_back(heap, &bytes)?);
    }
    Ok(counts)
}

// The reading of a sent frame is one stretch with its bytes and eight bits for each byte and sixteen more; it is good from two bytes on.
fn reads_back(heap: Global, bytes: &[u8]) -> Result<bool, AllocError> {
    let line = framing::encode(heap, bytes)?;
    let verdict = if bytes.len() < 2 {
        Verdict::Ignored
    } else {
        Verdict::Good
    };
    Ok(match framing::read(heap, &line)?.as_slice() {
        [one] => one.verdict == verdict
            && one.n == sent_bits(bytes)
            && one.content.as_slice() == bytes,
        _ => false,
    })
}
