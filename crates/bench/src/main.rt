// Looks at frames by hand. The libraries `commands` and `notation` parse what is typed, and `reports` makes what is told.
#![tactic(auto)]

ghost use Rattle.std.specs.Prelude.{◌≡◌, map, string_bytes, IsOk, IsErr};
ghost use Rattle.faults.specs.Messages.{complaint};
ghost use Rattle.bench.specs.Failures.{Tells, command_name, told};
ghost use Rattle.bench.specs.Prints.{Read, Answered};
ghost use Rattle.bench.specs.declared.Failure.TheVariants.{Memory};
ghost use Rattle.commands.specs.Commands.{command_shown};

mod help;

use crate::help::HELP;
use commands::{Command, Source, parse_command};
use faults::{Fault, complaint};
use reports::{check_report, encode_report, text_report};
use std::alloc::{AllocError, Global};
use std::error::Error;
use std::io::Read;
use std::process::ExitCode;
use std::{env, fmt, fs, io};

// Why the program ends with status 1.
#[derive(Debug, Drop)]
enum Failure {
    // A line for standard error.
    Told(String),
    Memory,
    Input(io::Error),
    Output(io::Error),
}

impl fmt::Display for Failure {
    ghost output = { told };

    fn fmt<W: fmt::Write>(&self, f: &mut fmt::Formatter<W>) -> fmt::Result {
        match self {
            Failure::Told(line) => write!(f, "{line}"),
            Failure::Memory => write!(f, "bench: out of memory"),
            Failure::Input(e) => write!(f, "bench: cannot read the command line: {e}"),
            Failure::Output(e) => write!(f, "bench: cannot write: {e}"),
        }
    }
}

impl Error for Failure {}

impl From<AllocError> for Failure {
    ghost from_gives = { λ _ failure. failure ≡ Memory };

    fn from(_e: AllocError) -> Self {
        Self::Memory
    }
}

// The failure that tells of a fault in a file or a command.
fn fault_in(heap: Global, about: &str, fault: Fault) -> Failure
    ensures { Tells result (complaint about.now fault) }
{
    complaint(heap, about, fault).map_or_else(Failure::from, Failure::Told)
}

// The failure that tells of a fault in a command, which is named by its first word.
fn fault_in_words(heap: Global, words: &[String], fault: Fault) -> Failure
    ensures { Tells result (complaint (command_name (map string_bytes words.now)) fault) }
{
    let about = words.first().map_or("command line", String::as_str);
    fault_in(heap, about, fault)
}

// The failure that tells of what cannot be read.
fn unreadable(heap: Global, name: &str, error: io::Error) -> Failure {
    format!(in heap; "bench: cannot read {name}: {error}").map_or_else(Failure::from, Failure::Told)
}

// The words after the program's name.
fn command_words(rt: &HostRuntime) -> Result<Vec<String>, Failure> {
    let all = env::args(rt).map_err(Failure::Input)?;
    Ok(all.skip(1).collect(rt.alloc())?)
}

fn standard_input(rt: &HostRuntime) -> io::Result<Vec<u8>> {
    let mut text = Vec::new(rt.alloc());
    rt.stdin().read_to_end(&mut text)?;
    Ok(text)
}

// What `read` tells of bit text from a place of this name.
fn read_text(heap: Global, name: &str, text: &[u8]) -> Result<String, Failure>
    ensures { Read result name.now text.now }
{
    text_report(heap, text).map_err(|fault| fault_in(heap, name, fault))
}

fn read_source(rt: &HostRuntime, source: &Source) -> Result<String, Failure> {
    let heap = rt.alloc();
    let (name, text) = match source {
        Source::StandardInput => ("standard input", standard_input(rt)),
        Source::File(path) => (path.as_str(), fs::read(rt, path.as_str())),
    };
    let text = text.map_err(|e| unreadable(heap, name, e))?;
    read_text(heap, name, &text)
}

// What a command prints, or why it prints nothing. A match and no table of functions: the check asks for an arm for each command.
fn answer(rt: &HostRuntime, help: &str, command: &Command) -> Result<String, Failure>
    ensures { Answered help.now result (command_shown command.now) }
{
    let heap = rt.alloc();
    match command {
        Command::Help => Ok(String::from_str(heap, help)?),
        Command::Check(bytes) => Ok(check_report(heap, bytes)?),
        Command::Encode(bytes) => Ok(encode_report(heap, bytes)?),
        Command::Read(source) => read_source(rt, source),
    }
}

fn run(rt: &HostRuntime) -> Result<(), Failure> {
    let heap = rt.alloc();
    let words = command_words(rt)?;
    let command = parse_command(heap, &words).map_err(|fault| fault_in_words(heap, &words, fault))?;
    let text = answer(rt, HELP, &command)?;
    rt.print(text.as_str()).map_err(Failure::Output)
}

// The status that the program ends with: 0, or 1 after a failure.
fn status(outcome: &Result<(), Failure>) -> ExitCode
    ensures done { IsOk outcome.now → result ≡ ExitCode.SUCCESS }
    ensures failed { IsErr outcome.now → result ≡ ExitCode.FAILURE }
{
    match outcome {
        Ok(()) => ExitCode::SUCCESS,
        Err(_) => ExitCode::FAILURE,
    }
}

fn main(rt: HostRuntime) -> ExitCode {
    let outcome = run(&rt);
    if let Err(failure) = &outcome {
        // Where standard error cannot be written either, the status alone tells of the failure.
        let _ = eprintln!(rt; "{failure}");
    }
    status(&outcome)
}
