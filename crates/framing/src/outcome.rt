// What the reading says of the bits between two flags.
ghost use Rattle.std.specs.Prelude.{◌≡◌, Some};
ghost use Rattle.framing.specs.Reading.{verdict_of};
ghost use Rattle.framing.specs.Words.{verdict_word};

use std::fmt;

// Bits between two flags: too few to be a frame, a damaged frame, or a good one.
#[derive(Clone, Copy, PartialEq, Eq, Debug)]
pub enum Verdict {
    // fewer than 25 bits after zero deletion
    Ignored,
    // 25 to 31 bits, or more that do not match the check
    Bad,
    // 32 bits or more that match the check
    Good,
}

impl Verdict {
    // Fewer than 25 bits are too few to be a frame, and fewer than 32 no whole one.
    pub(crate) fn of(n: usize, matching: bool) -> Verdict
        ensures { result ≡ verdict_of n matching }
    {
        match n {
            0..=24 => Verdict::Ignored,
            32.. if matching => Verdict::Good,
            _ => Verdict::Bad,
        }
    }
}

// The verdict in one word.
impl fmt::Display for Verdict {
    ghost output = { λ verdict. Some (verdict_word verdict) };

    fn fmt<W: fmt::Write>(&self, f: &mut fmt::Formatter<W>) -> fmt::Result {
        f.write_str(match self {
            Verdict::Ignored => "ignored",
            Verdict::Bad => "bad",
            Verdict::Good => "good",
        })
    }
}

// One stretch of line bits between two flags. It is plain data: clauses name its fields, and `as_read` takes them as a judgement, so it
// has no model.
#[derive(PartialEq, Eq, Debug, Drop)]
pub struct Stretch {
    pub verdict: Verdict,
    // how many bits zero deletion left
    pub n: usize,
    // all of them but the last 16, in bytes, the first bit as bit 0; a last byte of fewer bits has 0 above them
    pub content: Vec<u8>,
}
