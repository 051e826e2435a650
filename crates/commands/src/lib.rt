// The command line.
#![tactic(auto)]

ghost use Rattle.std.specs.Prelude.{◌≡◌, map, string_bytes};
ghost use Rattle.commands.specs.Commands.{source_shown, source_meant, command_shown, command_meant};
ghost use Rattle.faults.specs.Answers.{Answers};

use faults::Fault;
use notation::hex::parse_hex;
use std::alloc::Global;

// Where `read` takes its bit text from. It has the shape of an `Option`, but its names say which place it is.
#[derive(Drop)]
pub enum Source {
    StandardInput,
    File(String),
}

#[derive(Drop)]
pub enum Command {
    Help,
    Check(Vec<u8>),
    Encode(Vec<u8>),
    Read(Source),
}

// Where the word after `read` says that the bit text is: `-` is standard input.
// It parses a command's words, as `parse_hex` does: that is no conversion of a value, and so no `TryFrom`.
fn parse_source(words: &[String]) -> Result<Source, Fault>
    ensures { Answers source_shown result (source_meant (map string_bytes words.now)) }
{
    match words {
        [] => Err(Fault::NoFile),
        [path] if path.as_str() == "-" => Ok(Source::StandardInput),
        [path] => Ok(Source::File(path.clone()?)),
        _ => Err(Fault::SecondFile),
    }
}

// What the words after the program's name ask for. No words ask for help.
pub fn parse_command(heap: Global, words: &[String]) -> Result<Command, Fault>
    ensures { Answers command_shown result (command_meant (map string_bytes words.now)) }
{
    let [name, rest @ ..] = words else {
        return Ok(Command::Help);
    };
    match name.as_str() {
        "help" | "--help" | "-h" => Ok(Command::Help),
        "check" => parse_hex(heap, rest).map(Command::Check),
        "encode" => parse_hex(heap, rest).map(Command::Encode),
        "read" => parse_source(rest).map(Command::Read),
        _ => Err(Fault::UnknownCommand),
    }
}
