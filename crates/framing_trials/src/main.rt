// Compares the check sequence and framing with outside data, and with frames whole and damaged. It prints what it tried, and the file
// `stdout` of this crate has what it must print.
#![tactic(auto)]

mod counts;
mod damage;
mod fcstab;
mod frames;
mod plain;
mod streams;

fn main(rt: HostRuntime) -> anyhow::Result<()> {
    let heap = rt.alloc();
    println!(rt;
        "table: {} of 256 entries differ from PPP's fcstab",
        table_differences()
    )?;
    println!(rt;
        "check sequence of 123456789: {:04X}",
        fcs::fcs_check_sequence(b"123456789")
    )?;
    let frames = frames::read_back(heap)?;
    println!(rt;
        "frames: {} sent, {} not read back as sent",
        frames.tried, frames.hits
    )?;
    for (flipped, counts) in [
        ("nothing flipped", damage::none(heap)?),
        ("one bit flipped", damage::single_bits(heap)?),
        ("bursts of up to 16 bits", damage::bursts(heap)?),
    ] {
        println!(rt;
            "{flipped}: {} readings, {} good with as many bits",
            counts.tried, counts.hits
        )?;
    }
    let bytes = damage::bytes(heap)?;
    println!(rt;
        "bursts in bytes with their check sequence: {} lists, {} that match",
        bytes.tried, bytes.hits
    )?;
    let seen = streams::compared(heap, 5000)?;
    println!(rt;
        "random streams: {} with {} stretches, {} of them good; {} read otherwise by a plain reader",
        seen.streams, seen.stretches, seen.good, seen.different
    )?;
    Ok(())
}

fn table_differences() -> usize {
    fcs::FCS_TABLE
        .iter()
        .zip(fcstab::FCSTAB.iter())
        .filter(|(ours, theirs)| ours != theirs)
        .count()
}
