// Bits in bytes, the first bit as bit 0.
ghost use Rattle.std.specs.Prelude.{◌≡◌, ◌≤◌, length, IfOk};
ghost use Rattle.fcs.specs.Fcs.{spelt};
ghost use Rattle.framing.specs.Bytes.{bytes};

use std::alloc::{AllocError, Global};

// The byte that at most eight bits spell, with 0 above them.
fn byte_of(bits: &[bool]) -> u8
    requires { length bits.now ≤ 8 }
    ensures { result ≡ spelt bits.now }
{
    bits.iter()
        .rev()
        .fold(0, |above, bit| 2 * above + u8::from(*bit))
}

// Bits in bytes; a last byte of fewer bits has 0 above them.
pub(crate) fn packed(heap: Global, bits: &[bool]) -> Result<Vec<u8>, AllocError>
    ensures { IfOk result (λ v. v.items ≡ bytes bits.now) }
{
    bits.chunks(8).map(byte_of).collect(heap)
}
