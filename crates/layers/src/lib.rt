// The two layers over any line: NRZI and the crossed pair.
#![tactic(auto)]

ghost use Rattle.std.specs.Prelude.{◌≡◌, ◌≤◌};
ghost use Rattle.layers.specs.Layers.{inverted};

pub mod crossed;
pub mod nrzi;

pub use crossed::Crossed;
pub use nrzi::Nrzi;

// The other level.
fn invert(level: u8) -> u8
    requires { level ≤ 1 }
    ensures { result ≡ inverted level }
{
    1 - level
}
