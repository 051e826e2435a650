// The lines that are tried: each kind, each layer over each kind, and layers upon layers.
use crate::plain::Plain;
use crate::trial;
use cable::Cable;
use layers::{Crossed, Nrzi};
use line::{Jumper, Line, Word};
use sample_line::TwoPlaces;

// A line that is empty as it is made, with this level last taken. Places and level are not read off the line, which is what is tried.
fn fresh<L: Line + Drop>(
    rt: &HostRuntime,
    name: &str,
    line: L,
    places: usize,
    last: u8,
) -> anyhow::Result<()> {
    trial::run(rt, name, line, Plain::empty(rt.alloc(), places, last))
}

pub(crate) fn kinds(rt: &HostRuntime) -> anyhow::Result<()> {
    fresh(rt, "jumper", Jumper::new(), 1, 1)?;
    fresh(rt, "word", Word::new(), 64, 1)?;
    fresh(rt, "two places", TwoPlaces::new(), 2, 1)?;
    fresh(rt, "cable 0", Cable::new(&mut []), 0, 1)?;
    let mut five = [7u8; 5];
    fresh(rt, "cable 5", Cable::new(&mut five), 5, 1)?;
    let mut many = vec![in rt.alloc(); 200u8; 5000]?;
    fresh(rt, "cable 5000", Cable::new(&mut many), 4096, 1)
}

// One layer. A fresh crossed pair shows the level last taken below, 1, as 0.
pub(crate) fn layers(rt: &HostRuntime) -> anyhow::Result<()> {
    let mut bytes = [0u8; 16];
    fresh(rt, "nrzi jumper", Nrzi::new(Jumper::new()), 1, 1)?;
    fresh(rt, "nrzi word", Nrzi::new(Word::new()), 64, 1)?;
    let pile = Nrzi::new(Cable::new(&mut bytes));
    fresh(rt, "nrzi cable 16", pile, 16, 1)?;
    fresh(rt, "crossed jumper", Crossed::new(Jumper::new()), 1, 0)?;
    fresh(rt, "crossed word", Crossed::new(Word::new()), 64, 0)?;
    let pile = Crossed::new(Cable::new(&mut bytes));
    fresh(rt, "crossed cable 16", pile, 16, 0)
}

// Two layers and three.
pub(crate) fn deep(rt: &HostRuntime) -> anyhow::Result<()> {
    let mut bytes = [0u8; 100];
    let pile = Nrzi::new(Crossed::new(Jumper::new()));
    fresh(rt, "nrzi crossed jumper", pile, 1, 1)?;
    let pile = Crossed::new(Nrzi::new(Word::new()));
    fresh(rt, "crossed nrzi word", pile, 64, 0)?;
    let pile = Nrzi::new(Nrzi::new(TwoPlaces::new()));
    fresh(rt, "nrzi nrzi two places", pile, 2, 1)?;
    let pile = Crossed::new(Crossed::new(Cable::new(&mut bytes)));
    fresh(rt, "crossed crossed cable 100", pile, 100, 1)?;
    let pile = Nrzi::new(Crossed::new(Nrzi::new(Cable::new(&mut bytes))));
    fresh(rt, "nrzi crossed nrzi cable 100", pile, 100, 1)?;
    let pile = Crossed::new(Nrzi::new(Crossed::new(Word::new())));
    fresh(rt, "crossed nrzi crossed word", pile, 64, 0)?;
    let pile = Nrzi::new(Nrzi::new(Nrzi::new(Jumper::new())));
    fresh(rt, "nrzi nrzi nrzi jumper", pile, 1, 1)
}

// A word that holds the levels 1, 0, 0, 1, with level last taken 0.
fn holding() -> Word {
    let mut word = Word::new();
    for level in [0u8, 1, 0, 0, 1] {
        let _ = word.put(level);
    }
    let _ = word.take();
    word
}

// Lines that hold levels before a layer is put over them.
// Under NRZI each of 1, 0, 0, 1 is compared with the one before it, the first with 0; its own level last taken is 1 as it is made.
pub(crate) fn filled(rt: &HostRuntime) -> anyhow::Result<()> {
    let heap = rt.alloc();
    let plain = Plain::holding(heap, 64, 0, &[1, 0, 0, 1])?;
    trial::run(rt, "word with 1001", holding(), plain)?;
    let plain = Plain::holding(heap, 64, 1, &[0, 0, 1, 0])?;
    trial::run(rt, "nrzi word with 1001", Nrzi::new(holding()), plain)?;
    let plain = Plain::holding(heap, 64, 1, &[0, 1, 1, 0])?;
    trial::run(rt, "crossed word with 1001", Crossed::new(holding()), plain)?;
    let plain = Plain::holding(heap, 64, 1, &[0, 0, 1, 0])?;
    let pile = Nrzi::new(Crossed::new(holding()));
    trial::run(rt, "nrzi crossed word with 1001", pile, plain)
}
