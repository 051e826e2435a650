// The line between two modules: the trait, the law of every line, and the two lines that keep their levels in themselves.
#![tactic(auto)]

ghost use Rattle.std.specs.Prelude.{◌≡◌, ℕ, ◌<◌, ◌≤◌, length, OnOk};
ghost use Rattle.std.specs.List.{slice_get};
ghost use Rattle.line.specs.Meaning.{Meaning, Memory, Sound, admitted, checked, if_accepted, put_answer, put_after, take_answer, take_after};

use refusal::Refusal;

pub mod act;
pub mod jumper;
pub mod script;
pub mod word;

pub use act::Act;
pub use jumper::Jumper;
pub use script::{perform, run};
pub use word::Word;

/// A queue of levels, 0 or 1, with a fixed number of places.
// No method has a body here: what is alike in the lines reads their own fields, which a trait does not see.
pub trait Line {
    // The number of places, the level last taken, and the waiting levels, oldest first.
    ghost meaning: { Self → Meaning };

    // No more levels wait than there are places, and each level is 0 or 1.
    ghost sound: { (line : Self) → Sound (meaning line) };

    // The caller's bytes that the line is kept in, and which of them the next accepted put writes.
    ghost memory: { Self → Memory };

    // What an accepted put of a level leaves there.
    ghost written: { Self → ℕ → Memory };

    /// One level more behind those that wait: 0, or `LevelAboveOne` (2) for a level above 1, then `LineFull` (16) for a full line.
    /// A refusal alters nothing.
    fn put(&mut self, level: u8) -> Result<u8, Refusal>
        ensures answer { result ≡ put_answer (meaning self.old) level }
        ensures after { meaning self.new ≡ put_after (meaning self.old) level }
        ensures stored { memory self.new ≡ if_accepted (put_answer (meaning self.old) level) (written self.old level) (memory self.old) };

    /// The oldest level, which leaves the line and is then the level last taken, or `LineEmpty` (17) if none waits.
    /// Neither writes a byte of the caller's.
    fn take(&mut self) -> Result<u8, Refusal>
        ensures answer { result ≡ take_answer (meaning self.old) }
        ensures after { meaning self.new ≡ take_after (meaning self.old) }
        ensures stored { memory self.new ≡ memory self.old };

    /// How many levels wait.
    fn count(&self) -> usize
        ensures { result ≡ length (meaning self.now).waiting };

    /// How many levels can wait.
    fn places(&self) -> usize
        ensures { result ≡ (meaning self.now).places };

    /// The level last taken.
    fn last_taken(&self) -> u8
        ensures { result ≡ (meaning self.now).last };

    /// The waiting level at place k, the oldest at 0, or none if k is not below the count.
    fn level_at(&self, k: usize) -> Option<u8>
        ensures { result ≡ slice_get (meaning self.now).waiting k };
}

/// The level, or a refusal if it is above 1.
// A layer calls it too, before it reads the line below: a put there would be told the level that the layer makes of this one.
pub fn check_level(level: u8) -> Result<u8, Refusal>
    ensures answer { result ≡ checked level }
    ensures low { OnOk result (level ≤ 1) }
{
    if level > 1 {
        Err(Refusal::LevelAboveOne)
    } else {
        Ok(level)
    }
}

/// What a put of this level is answered where `count` of `places` places are taken.
// Each line's put is this and then a step of its own: as a method of the trait that step would ask its callers for room.
pub fn admit(level: u8, count: usize, places: usize) -> Result<u8, Refusal>
    ensures answer { result ≡ admitted level count places }
    ensures room { OnOk result ((level ≤ 1) × (count < places)) }
{
    check_level(level)?;
    if count >= places {
        return Err(Refusal::LineFull);
    }
    Ok(0)
}
