// Scripts of puts and takes over the caller's bytes.
ghost use Rattle.std.specs.Prelude.{◌≡◌, min, length, drop};
ghost use Rattle.line.specs.Acts.{accepted_levels};
ghost use Rattle.line.specs.Histories.{events};
ghost use Rattle.cable.specs.Bytes.{DoneFromFresh, bytes_after};
ghost use Rattle.cable.specs.Cables.{places_over};

use crate::Cable;
use line::{Act, run};
use refusal::Refusal;

/// Makes a cable over the caller's bytes and performs acts on it, as `run` does.
/// The caller's bytes are then as the accepted puts left them, and those beyond the cable's places as they were.
// The acts and the answers are two slices of the caller's, as for `run`.
pub fn run_over(bytes: &mut [u8], acts: &[Act], answers: &mut [Result<u8, Refusal>]) -> usize
    ensures count { result ≡ min (length acts.now) (length answers.old) }
    ensures done { DoneFromFresh (places_over (length bytes.old)) acts.now answers.new }
    ensures rest { drop result answers.new ≡ drop result answers.old }
    ensures bytes { bytes.new ≡ bytes_after bytes.old (accepted_levels (events acts.now answers.new)) }
{
    let mut cable = Cable::new(bytes);
    run(&mut cable, acts, answers)
}
