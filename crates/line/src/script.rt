// Whole scripts of puts and takes on any line, and the law of what comes of them.
ghost use Rattle.std.specs.Prelude.{◌≡◌, min, length, drop};
ghost use Rattle.line.specs.Acts.{Happens, shown};
ghost use Rattle.line.specs.Histories.{Done};
ghost use Rattle.line.specs.Laws.{AlwaysCarries};

use crate::Line;
use crate::act::Act;
use refusal::Refusal;

/// One act, whichever it is.
// An act is data and no closure: scripts are kept, and the law tells what an act was.
pub fn perform<L: Line>(line: &mut L, act: Act) -> Result<u8, Refusal>
    ensures { Happens (shown L.meaning L.memory L.written) line.old act result line.new }
{
    match act {
        Act::Take => line.take(),
        Act::Put(level) => line.put(level),
    }
}

/// Performs acts in order, as many as there are places for answers, and says how many.
/// What comes of any acts: the line carries levels in order and loses, adds and alters none.
// The acts and the answers are two slices of the caller's, and not one of pairs: the acts may stand where nothing can be written.
pub fn run<L: Line>(line: &mut L, acts: &[Act], answers: &mut [Result<u8, Refusal>]) -> usize
    ensures count { result ≡ min (length acts.now) (length answers.old) }
    ensures done { Done (Happens (shown L.meaning L.memory L.written)) line.old acts.now answers.new line.new }
    ensures rest { drop result answers.new ≡ drop result answers.old }
    ensures carries { AlwaysCarries (shown L.meaning L.memory L.written) line.old }
{
    let most = acts.len().min(answers.len());
    // Zipped with the answers' `iter_mut()` the loop would need no places, but of what a zip writes a proof knows nothing.
    for (n, act) in acts[..most].iter().enumerate() {
        answers[n] = perform(line, *act);
    }
    most
}
