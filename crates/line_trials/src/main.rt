// Runs the same random puts, takes and questions through every kind of line and many piles, and through a plain list.
// It prints a line for each pile, and the file `stdout` of this crate has what it must print.
#![tactic(auto)]

mod bytes;
mod piles;
mod plain;
mod trial;

// Where all random numbers begin.
const SEED: u64 = 0x9E37_79B9_7F4A_7C15;

fn main(rt: HostRuntime) -> anyhow::Result<()> {
    piles::kinds(&rt)?;
    piles::layers(&rt)?;
    piles::deep(&rt)?;
    piles::filled(&rt)?;
    bytes::all(&rt)
}
