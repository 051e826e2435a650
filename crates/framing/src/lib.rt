// HDLC framing as ISO/IEC 13239 has it: the line bits of a frame, and the reading of any line bits.
//
// A flag is 01111110. Between two flags the sender inserts a 0 after every five 1s in a row, and the reader deletes it again, so that no
// flag and no abort (seven 1s in a row) appears inside a frame. The bits between two flags are a stretch; n is how many zero deletion
// leaves of it. A stretch with n below 25 is ignored, with n from 25 to 31 bad, else good if all n bits match the check and bad if not.
#![tactic(auto)]

ghost use Rattle.framing.specs.Examples.{Examples};

mod deletion;
mod encoder;
pub mod outcome;
mod packing;
mod reader;
mod run;

pub use encoder::encode;
pub use outcome::{Stretch, Verdict};
pub use reader::read;

// The worked examples hold of the definitions that the contracts cite. A theorem counts only where a public contract names it, and they are
// about no one function, so this one stands for their sake.
pub fn examples_hold()
    ensures { Examples }
{}
