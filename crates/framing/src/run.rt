// Bits with the run of 1s at their end, as zero insertion and zero deletion count it: `encoder` and `deletion` say what a bit does to them.
ghost use Rattle.std.specs.Prelude.{◌≡◌};
ghost use Rattle.framing.specs.Stages.{nothing};

use std::alloc::{AllocError, Global};
use std::marker::Model;

// The bits so far, and the 1s in a row that came last, at most `MOST`. On the way out that is four, since a 0 follows the fifth and begins
// the count again; on the way in it is five, since the 0 that follows them is still to come.
#[derive(Drop)]
pub(crate) struct Run<const MOST: u8> {
    pub(crate) bits: Vec<bool>,
    pub(crate) run: u8,
}

impl<const MOST: u8> Model for Run<MOST> {
    ghost use Rattle.std.specs.Prelude.{◌≤◌};
    ghost use Rattle.framing.specs.Stages.{Counted};

    ghost Value = { Counted };

    ghost view = { λ r. record { bits = r.bits.items; run = r.run } };

    ghost invariant = { λ r. r.run ≤ MOST };
}

impl<const MOST: u8> Run<MOST> {
    pub(crate) fn new(heap: Global) -> Self
        ensures { result ≡ nothing }
    {
        Run {
            bits: Vec::new(heap),
            run: 0,
        }
    }
}
