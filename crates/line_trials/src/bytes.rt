// What puts and takes leave in the caller's bytes, beside a plain count of the puts.
use cable::Cable;
use layers::{Crossed, Nrzi};
use line::Act;
use numbers::Numbers;
use refusal::Refusal;
use std::alloc::{AllocError, Global};

// What stands in the caller's bytes before a line is made over them.
const BEFORE: u8 = 170;

// Random acts: two of three are puts.
fn acts(heap: Global, count: usize) -> Result<Vec<Act>, AllocError> {
    let mut numbers = Numbers::from_seed(crate::SEED);
    (0..count)
        .map(|_| match numbers.below(3) {
            0 => Act::Take,
            _ => Act::Put(numbers.below(3) as u8),
        })
        .collect(heap)
}

// The levels of the puts that were accepted. Acts and answers stand in two lists, as `run` takes them.
fn accepted(
    heap: Global,
    acts: &[Act],
    answers: &[Result<u8, Refusal>],
) -> Result<Vec<u8>, AllocError> {
    acts.iter()
        .zip(answers)
        .filter_map(|(act, answer)| match (act, answer) {
            (Act::Put(level), Ok(_)) => Some(*level),
            _ => None,
        })
        .collect(heap)
}

// The bytes as accepted put number i should leave them: byte i modulo places has what is written of its level and the one written before,
// and 1 stands where none fell.
fn expected<F: Fn(u8, u8) -> u8>(
    heap: Global,
    size: usize,
    levels: &[u8],
    written: F,
) -> Result<Vec<u8>, AllocError>
    requires { F.IsAlwaysCallable written }
{
    let places = size.min(4096);
    let mut bytes = vec![in heap; BEFORE; size]?;
    bytes[..places].fill(1);
    let mut before = 1;
    for round in levels.chunks(places.max(1)) {
        for (byte, level) in bytes.iter_mut().zip(round) {
            before = written(before, *level);
            *byte = before;
        }
    }
    Ok(bytes)
}

// Performs the acts over bytes, and prints how many of these are not as expected. Name and size vary apart, as do the two closures.
fn compare<R, F>(
    rt: &HostRuntime,
    name: &str,
    size: usize,
    run: R,
    written: F,
) -> anyhow::Result<()>
where
    R: FnOnce(&mut [u8], &[Act], &mut [Result<u8, Refusal>]) -> usize,
    F: Fn(u8, u8) -> u8,
    requires run { R.IsAlwaysCallable run }
    requires written { F.IsAlwaysCallable written }
{
    let heap = rt.alloc();
    let acts = acts(heap, 20_000)?;
    let mut bytes = vec![in heap; BEFORE; size]?;
    let mut answers = vec![in heap; Err(Refusal::LineEmpty); acts.len()]?;
    let _ = run(&mut bytes, &acts, &mut answers);
    let levels = accepted(heap, &acts, &answers)?;
    let theirs = expected(heap, size, &levels, written)?;
    println!(rt;
        "bytes under {name} {size}: {} puts accepted, {} of {} bytes differ",
        levels.len(),
        bytes
            .iter()
            .zip(&theirs)
            .filter(|(ours, theirs)| ours != theirs)
            .count(),
        bytes.len()
    )?;
    Ok(())
}

pub(crate) fn all(rt: &HostRuntime) -> anyhow::Result<()> {
    for size in [0, 1, 7, 4096, 5000] {
        compare(rt, "cable", size, cable::run_over, |_, level| level)?;
    }
    compare(
        rt,
        "crossed cable",
        7,
        |bytes, acts, answers| line::run(&mut Crossed::new(Cable::new(bytes)), acts, answers),
        |_, level| 1 ^ level,
    )?;
    compare(
        rt,
        "nrzi cable",
        7,
        |bytes, acts, answers| line::run(&mut Nrzi::new(Cable::new(bytes)), acts, answers),
        |before, level| before ^ 1 ^ level,
    )
}
