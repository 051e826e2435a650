// A second reader of line bits, written from the rules by places in the list and with no state, to compare `framing::read` with on
// random streams. It shares only the type of a stretch with `framing`: its flag, its limits, its bytes and its check register, which goes
// bit by bit and by no table, stand here a second time so that a mistake there would show.
use framing::{Stretch, Verdict};
use std::alloc::{AllocError, Global};

const FLAG: [bool; 8] = [false, true, true, true, true, true, true, false];

// The seventh 1 in a row comes last.
fn ends_in_abort(bits: &[bool]) -> bool {
    bits.ends_with(&[true; 7]) && !bits.ends_with(&[true; 8])
}

// What is left without each 0 that follows five 1s.
fn deleted(heap: Global, stretch: &[bool]) -> Result<Vec<bool>, AllocError> {
    let mut left = Vec::new(heap);
    for (place, bit) in stretch.iter().enumerate() {
        if *bit || !stretch[..place].ends_with(&[true; 5]) {
            left.push(*bit)?;
        }
    }
    Ok(left)
}

fn matching(bits: &[bool]) -> bool {
    let register = bits.iter().fold(0xFFFFu16, |register, bit| {
        let low = u16::from(*bit) ^ (register & 1);
        (register >> 1) ^ if low == 1 { 0x8408 } else { 0 }
    });
    register == 0xF0B8
}

fn byte(bits: &[bool]) -> u8 {
    bits.iter()
        .rev()
        .fold(0, |above: u8, bit| (above << 1) | u8::from(*bit))
}

fn judged(heap: Global, stretch: &[bool]) -> Result<Stretch, AllocError> {
    let left = deleted(heap, stretch)?;
    let n = left.len();
    let verdict = if n < 25 {
        Verdict::Ignored
    } else if n >= 32 && matching(&left) {
        Verdict::Good
    } else {
        Verdict::Bad
    };
    let content = left[..n.saturating_sub(16)]
        .chunks(8)
        .map(byte)
        .collect(heap)?;
    Ok(Stretch {
        verdict,
        n,
        content,
    })
}

// Every stretch of the bits.
pub(crate) fn read(heap: Global, bits: &[bool]) -> Result<Vec<Stretch>, AllocError> {
    let mut found = Vec::new(heap);
    // where the last flag ended, if no abort came since
    let mut since = None;
    // by ends, since every rule looks back from one
    for end in 1..=bits.len() {
        let so_far = &bits[..end];
        if ends_in_abort(so_far) {
            since = None;
        }
        if so_far.ends_with(&FLAG) {
            if let Some(first) = since {
                // a flag that shares its first 0 with the one before it leaves no bit between them
                let last = end.saturating_sub(FLAG.len());
                found.push(judged(heap, &bits[last.min(first)..last])?)?;
            }
            since = Some(end);
        }
    }
    Ok(found)
}
