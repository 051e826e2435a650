// The line over the caller's bytes.
#![tactic(auto)]

ghost use Rattle.std.specs.Prelude.{◌≡◌, ◌+◌, ◌%◌, ◌<◌, ◌≤◌, [], ◌∷◌, length, Ok};
ghost use Rattle.cable.specs.Bytes.{AlwaysRound};
ghost use Rattle.cable.specs.Cables.{cable_meaning, cable_memory, cable_written, fresh_bytes, places_over};
ghost use Rattle.cable.specs.Soundness.{cable_sound};
ghost use Rattle.line.specs.Meaning.{appended, fresh, take_answer, take_after};

use line::{Line, admit};
use refusal::Refusal;

pub mod over;

pub use over::run_over;

// The most places that a cable has.
const MOST: usize = 4096;

/// A cable: a ring of as many places as there are bytes, at most 4096.
// Every value of the fields means a line (a count above the places counts as the places), so an invariant would only narrow what is defined.
// The caller's bytes are the only memory, so the number of levels stands beside them.
// No model: behind one, the end of the borrow no longer tells `run_over` what its caller's bytes are then.
#[derive(Drop)]
pub struct Cable<'a> {
    bytes: &'a mut [u8],
    first: usize,
    count: usize,
    last: bool,
}

// Writes 1 to the bytes of a cable's places.
fn raise(bytes: &mut [u8])
    ensures { bytes.new ≡ fresh_bytes bytes.old }
{
    let places = bytes.len().min(MOST);
    bytes[..places].fill(1);
}

impl<'a> Cable<'a> {
    /// Empty, with level last taken 1. The bytes of its places are set to 1, and those beyond stand.
    /// Whatever is put and taken from then on, accepted put number i, from 0, writes byte i modulo places, and nothing else writes one.
    pub fn new(bytes: &'a mut [u8]) -> Self
        ensures meaning { cable_meaning result ≡ fresh (places_over (length bytes.old)) }
        ensures memory { cable_memory result ≡ record { bytes = fresh_bytes bytes.old; next = 0; borrows = bytes.entry.ghost_name ∷ [] } }
        ensures round { AlwaysRound bytes.old result }
    {
        raise(bytes);
        Self::empty(bytes)
    }

    // Empty, over bytes as they are.
    fn empty(bytes: &'a mut [u8]) -> Self
        ensures meaning { cable_meaning result ≡ fresh (places_over (length bytes.old)) }
        ensures memory { cable_memory result ≡ record { bytes = bytes.old; next = 0; borrows = bytes.entry.ghost_name ∷ [] } }
    {
        Cable {
            bytes,
            first: 0,
            count: 0,
            last: true,
        }
    }

    /// The caller's bytes, to look at.
    pub fn bytes(&self) -> &[u8]
        ensures { result.now ≡ (cable_memory self.now).bytes }
    {
        &self.bytes[..]
    }

    // The byte that is k places on from the one where the ring begins.
    #[tactic(auto, using(crate::proofs::Rings::place_is))]
    fn byte_on(&self, k: usize) -> usize
        requires { (0 < places_over (length self.now.bytes.now)) × (k ≤ 4096) }
        ensures { result ≡ (self.now.first + k) % places_over (length self.now.bytes.now) }
    {
        let places = self.places();
        (self.first % places + k) % places
    }

    // One level more. It stands apart from `put`, as `shift` from `take`: the proofs of these two are written by hand, and a wrong call of
    // either is then refused where it stands.
    fn append(&mut self, level: u8)
        requires { (level ≤ 1) × (length (cable_meaning self.old).waiting < (cable_meaning self.old).places) }
        ensures meaning { cable_meaning self.new ≡ appended (cable_meaning self.old) level }
        ensures memory { cable_memory self.new ≡ cable_written self.old level }
    {
        let waiting = self.count();
        let at = self.byte_on(waiting);
        self.bytes[at] = level;
        self.count = waiting + 1;
    }

    // The oldest level leaves.
    fn shift(&mut self) -> u8
        requires { 0 < length (cable_meaning self.old).waiting }
        ensures answer { Ok result ≡ take_answer (cable_meaning self.old) }
        ensures meaning { cable_meaning self.new ≡ take_after (cable_meaning self.old) }
        ensures memory { cable_memory self.new ≡ cable_memory self.old }
    {
        let level = self.bytes[self.byte_on(0)] % 2;
        self.count = self.count() - 1;
        self.first = self.byte_on(1);
        self.last = level == 1;
        level
    }
}

impl<'a> Line for Cable<'a> {
    ghost meaning = { λ s. cable_meaning s };

    ghost sound = { λ s. cable_sound s.bytes.now s.first s.count s.last };

    ghost memory = { λ s. cable_memory s };

    ghost written = { λ s level. cable_written s level };

    fn put(&mut self, level: u8) -> Result<u8, Refusal> {
        let answer = admit(level, self.count(), self.places())?;
        self.append(level);
        Ok(answer)
    }

    fn take(&mut self) -> Result<u8, Refusal> {
        if self.count() == 0 {
            return Err(Refusal::LineEmpty);
        }
        Ok(self.shift())
    }

    #[tactic(auto, using(line::specs::Soundness::length_counted))]
    fn count(&self) -> usize {
        self.count.min(self.places())
    }

    fn places(&self) -> usize {
        self.bytes.len().min(MOST)
    }

    fn last_taken(&self) -> u8 {
        u8::from(self.last)
    }

    #[tactic(auto, using(line::specs::Soundness::length_counted, line::proofs::Counting::counted_at))]
    fn level_at(&self, k: usize) -> Option<u8> {
        if k >= self.count() {
            return None;
        }
        Some(self.bytes[self.byte_on(k)] % 2)
    }
}
