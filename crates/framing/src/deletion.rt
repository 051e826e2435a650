// Zero deletion.
ghost use Rattle.std.specs.Prelude.{◌≡◌, IfOk, fold, OnOk};
ghost use Rattle.framing.specs.Stages.{nothing, kept_bit};

use crate::run::Run;
use std::alloc::{AllocError, Global};

impl Run<5> {
    // A 0 that follows five 1s in a row is dropped, and every other bit kept.
    fn bit(&mut self, bit: bool) -> Result<(), AllocError>
        ensures { OnOk result (self.new ≡ kept_bit self.old bit) }
    {
        if bit || self.run != 5 {
            self.bits.push(bit)?;
        }
        self.run = if bit { (self.run + 1).min(5) } else { 0 };
        Ok(())
    }
}

// The bits that zero deletion leaves of a stretch. `read` feeds its reader in the same three lines; a trait for the two would be longer.
pub(crate) fn without_inserted(heap: Global, stretch: &[bool]) -> Result<Vec<bool>, AllocError>
    ensures { IfOk result (λ v. v.items ≡ (fold kept_bit nothing stretch.now).bits) }
{
    let mut kept = Run::<5>::new(heap);
    for bit in stretch {
        kept.bit(*bit)?;
    }
    Ok(kept.bits)
}
