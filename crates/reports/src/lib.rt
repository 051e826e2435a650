// What the commands tell.
#![tactic(auto)]

ghost use Rattle.std.specs.Prelude.{◌≡◌, map, length, Some, IfOk, string_bytes};
ghost use Rattle.framing.specs.Reading.{as_read, good_contents};
ghost use Rattle.faults.specs.Answers.{Answers};
ghost use Rattle.reports.specs.Reports.{hex_or_none, sequence_line, match_text, summary_lines};
ghost use Rattle.reports.specs.Reports.{check_told, frame_told, encode_told, read_told, text_told};

use faults::Fault;
use fcs::{fcs_check_sequence, fcs_matches};
use framing::{Stretch, Verdict};
use notation::bits::{bit_text, parse_bits};
use notation::hex::{HexWords, SequenceWord};
use std::alloc::{AllocError, Global};
use std::fmt;
use std::fmt::Write;

// Bytes in hexadecimal, or `none`.
#[derive(Clone, Copy)]
struct HexOrNone<'a>(&'a [u8]);

impl fmt::Display for HexOrNone<'_> {
    ghost output = { λ hex. Some (hex_or_none hex.0.now) };

    fn fmt<W: fmt::Write>(&self, f: &mut fmt::Formatter<W>) -> fmt::Result {
        if self.0.is_empty() {
            return write!(f, "none");
        }
        let words = HexWords(self.0);
        write!(f, "{words}")
    }
}

// The line of a check sequence, with the order in which its bytes are sent.
#[derive(Clone, Copy)]
struct SequenceLine(u16);

impl fmt::Display for SequenceLine {
    ghost output = { λ line. Some (sequence_line line.0) };

    fn fmt<W: fmt::Write>(&self, f: &mut fmt::Formatter<W>) -> fmt::Result {
        let word = SequenceWord(self.0);
        let bytes = self.0.to_le_bytes();
        let sent = HexWords(&bytes);
        writeln!(f, "check sequence: {word}, sent as {sent}")
    }
}

// Whether the bytes match: they do if they end with the check sequence of those before it.
fn match_text(bytes: &[u8]) -> &'static str
    ensures { result.now ≡ match_text bytes.now }
{
    if fcs_matches(bytes) { "yes" } else { "no" }
}

// What `check` tells of bytes.
pub fn check_report(heap: Global, bytes: &[u8]) -> Result<String, AllocError>
    ensures { IfOk result (λ s. string_bytes s ≡ check_told bytes.now) }
{
    let hex = HexOrNone(bytes);
    let number = bytes.len();
    let line = SequenceLine(fcs_check_sequence(bytes));
    let matching = match_text(bytes);
    format!(in heap; "bytes: {hex}\nnumber of bytes: {number}\n{line}match: {matching}\n")
}

// What is told of bytes and of line bits. It stands apart from `encode_report`, since its proof closes only over any bits.
fn frame_report(heap: Global, bytes: &[u8], bits: &[bool]) -> Result<String, AllocError>
    ensures { IfOk result (λ s. string_bytes s ≡ frame_told bytes.now bits.now) }
{
    let hex = HexOrNone(bytes);
    let line = SequenceLine(fcs_check_sequence(bytes));
    let number = bits.len();
    let text = bit_text(heap, bits)?;
    format!(in heap; "bytes: {hex}\n{line}number of line bits: {number}\n{text}\n")
}

// What `encode` tells of bytes: the line bits of their frame.
pub fn encode_report(heap: Global, bytes: &[u8]) -> Result<String, AllocError>
    ensures { IfOk result (λ s. string_bytes s ≡ encode_told bytes.now) }
{
    let bits = framing::encode(heap, bytes)?;
    frame_report(heap, bytes, &bits)
}

// How many of the stretches are good frames.
#[tactic(auto, using(crate::proofs::Lines::good_count))]
fn good_frames(stretches: &[Stretch]) -> usize
    ensures { result ≡ length (good_contents (map as_read stretches.now)) }
{
    stretches
        .iter()
        .filter(|s| s.verdict == Verdict::Good)
        .count()
}

// How many line bits, stretches and good frames there are.
#[derive(Clone, Copy)]
struct Summary<'a> {
    bits: usize,
    stretches: &'a [Stretch],
}

impl fmt::Display for Summary<'_> {
    ghost output = { λ s. Some (summary_lines s.bits (map as_read s.stretches.now)) };

    fn fmt<W: fmt::Write>(&self, f: &mut fmt::Formatter<W>) -> fmt::Result {
        let bits = self.bits;
        let number = self.stretches.len();
        let good = good_frames(self.stretches);
        writeln!(
            f,
            "line bits: {bits}\nstretches: {number}\ngood frames: {good}"
        )
    }
}

// What `read` tells of line bits: every stretch, and how many there are.
pub fn read_report(heap: Global, bits: &[bool]) -> Result<String, AllocError>
    ensures { IfOk result (λ s. string_bytes s ≡ read_told bits.now) }
{
    let stretches = framing::read(heap, bits)?;
    let mut text = String::new(heap);
    for (i, stretch) in stretches.iter().enumerate() {
        let content = HexOrNone(&stretch.content);
        let Stretch { verdict, n, .. } = stretch;
        writeln!(
            text,
            "stretch {}: {verdict}, {n} bits, content {content}",
            i + 1
        )?;
    }
    let summary = Summary {
        bits: bits.len(),
        stretches: &stretches,
    };
    write!(text, "{summary}")?;
    Ok(text)
}

// The same of a text of bits, or the first mistake in it.
pub fn text_report(heap: Global, text: &[u8]) -> Result<String, Fault>
    ensures { Answers string_bytes result (text_told text.now) }
{
    let bits = parse_bits(heap, text)?;
    Ok(read_report(heap, &bits)?)
}
