// Random streams of line bits, rich in flags, frames, aborts and damage, read by `framing::read` and by the plain reader.
use crate::{frames, plain};
use framing::Verdict;
use numbers::Numbers;
use std::alloc::{AllocError, Global};
use std::iter;

#[derive(Default, Drop)]
pub(crate) struct Readings {
    pub(crate) streams: u32,
    pub(crate) stretches: usize,
    pub(crate) good: usize,
    pub(crate) different: u32,
}

// A frame of up to seven bytes, without its opening flag's first bit if it is to share one.
fn push_frame(heap: Global, line: &mut Vec<bool>, numbers: &mut Numbers) -> Result<(), AllocError> {
    let content = frames::CONTENTS[numbers.below(9) as usize];
    let bytes = content.bytes(heap, numbers.below(8) as usize)?;
    let bits = framing::encode(heap, &bytes)?;
    line.extend(bits.iter().copied().skip(numbers.below(2) as usize))
}

fn push_piece(heap: Global, line: &mut Vec<bool>, numbers: &mut Numbers) -> Result<(), AllocError> {
    match numbers.below(6) {
        0 => line.extend(iter::repeat_n(true, numbers.below(18) as usize)),
        1 => line.extend(iter::repeat_n(false, numbers.below(34) as usize)),
        2 => line.extend_from_slice(&[true, true, true, true, true, true, false]),
        3 => {
            let count = numbers.below(40);
            line.extend((0..count).map(|_| numbers.below(4) != 0))
        }
        _ => push_frame(heap, line, numbers),
    }
}

fn stream(heap: Global, numbers: &mut Numbers) -> Result<Vec<bool>, AllocError> {
    let mut line = Vec::new(heap);
    for _ in 0..numbers.below(10) {
        push_piece(heap, &mut line, numbers)?;
    }
    let place = numbers.below(1000) as usize;
    if let Some(bit) = line.get_mut(place) {
        *bit = !*bit;
    }
    Ok(line)
}

// Reads `count` streams in both ways.
pub(crate) fn compared(heap: Global, count: u32) -> Result<Readings, AllocError> {
    let mut numbers = Numbers::from_seed(0x9E37_79B9_7F4A_7C15);
    let mut seen = Readings {
        streams: count,
        ..Readings::default()
    };
    for _ in 0..count {
        let line = stream(heap, &mut numbers)?;
        let stretches = framing::read(heap, &line)?;
        let differs = stretches != plain::read(heap, &line)?;
        let good = stretches
            .iter()
            .filter(|stretch| stretch.verdict == Verdict::Good)
            .count();
        seen.stretches = seen.stretches.saturating_add(stretches.len());
        seen.good = seen.good.saturating_add(good);
        seen.different = seen.different.saturating_add(u32::from(differs));
    }
    Ok(seen)
}
