use commands::{Command, Source, parse_command};
use faults::{Fault, complaint};
use notation::bits::{bit_text, parse_bits};
use notation::hex::{hex_text, parse_hex, sequence_text};
use reports::{check_report, encode_report, text_report};
use std::alloc::{AllocError, Global};
use std::test::Fail;

// What is given, and what comes of it: the answer as text, or the fault's message.
#[derive(Clone, Copy)]
struct Case(&'static str, &'static str);

// The words of a text, with `|` between two.
fn words(heap: Global, text: &str) -> Result<Vec<String>, AllocError> {
    text.split('|')
        .map(|word| String::from_str(heap, word))
        .try_collect(heap)
}

// What comes of an input: the answer as text, or the fault's message. The functions below are one call of it each.
fn outcome<T, F: FnOnce(T) -> Result<String, AllocError>>(
    heap: Global,
    answer: Result<T, Fault>,
    shown: F,
) -> Result<String, AllocError>
    requires { F.IsAlwaysCallable shown }
{
    answer.map_or_else(|fault| fault.to_string(heap), shown)
}

fn hex_outcome(heap: Global, words: &[String]) -> Result<String, AllocError> {
    outcome(heap, parse_hex(heap, words), |bytes| hex_text(heap, &bytes))
}

fn bits_outcome(heap: Global, text: &str) -> Result<String, AllocError> {
    outcome(
        heap,
        parse_bits(heap, text.as_bytes()),
        |bits| bit_text(heap, &bits),
    )
}

fn reading_outcome(heap: Global, text: &str) -> Result<String, AllocError> {
    outcome(heap, text_report(heap, text.as_bytes()), Ok)
}

fn command_outcome(heap: Global, words: &[String]) -> Result<String, AllocError> {
    outcome(
        heap,
        parse_command(heap, words),
        |command| command_text(heap, &command),
    )
}

fn command_text(heap: Global, command: &Command) -> Result<String, AllocError> {
    let (name, bytes) = match command {
        Command::Help => return String::from_str(heap, "help"),
        Command::Read(Source::StandardInput) => return String::from_str(
            heap,
            "read standard input",
        ),
        Command::Read(Source::File(path)) => return format!(in heap; "read file {path}"),
        Command::Check(bytes) => ("check", bytes),
        Command::Encode(bytes) => ("encode", bytes),
    };
    let hex = hex_text(heap, bytes)?;
    format!(in heap; "{name} {hex}")
}

const HEX: [Case; 20] = [
    Case("03|3F", "03 3F"),
    Case("033f", "03 3F"),
    Case("aBcDeF|09", "AB CD EF 09"),
    Case("00|fF|7e", "00 FF 7E"),
    Case("", "word 1 is empty"),
    Case("03||3F", "word 2 is empty"),
    Case("0", "word 1 has an odd number of digits"),
    Case("03|123|4", "word 2 has an odd number of digits"),
    Case("0g", "word 1, character 2: 'g' is no hexadecimal digit"),
    Case("g", "word 1, character 1: 'g' is no hexadecimal digit"),
    Case(
        "03|0123G",
        "word 2, character 5: 'G' is no hexadecimal digit",
    ),
    Case("/0", "word 1, character 1: '/' is no hexadecimal digit"),
    Case(":0", "word 1, character 1: ':' is no hexadecimal digit"),
    Case("@0", "word 1, character 1: '@' is no hexadecimal digit"),
    Case("`0", "word 1, character 1: '`' is no hexadecimal digit"),
    Case("0x3F", "word 1, character 2: 'x' is no hexadecimal digit"),
    Case(
        "0 3",
        "word 1, character 2: byte 20 is no hexadecimal digit",
    ),
    Case("é0", "word 1, character 1: byte C3 is no hexadecimal digit"),
    Case("0g|x", "word 1, character 2: 'g' is no hexadecimal digit"),
    Case("0|g", "word 1 has an odd number of digits"),
];

const BITS: [Case; 12] = [
    Case("", ""),
    Case("0", "0"),
    Case("01111110", "01111110"),
    Case(" 0\t1\r\n0 \n", "010"),
    Case("\r\n \t", ""),
    Case("012", "line 1, column 3: '2' is no 0, 1 or white space"),
    Case("01\n0x1", "line 2, column 2: 'x' is no 0, 1 or white space"),
    Case(
        "01\r\n\n\t x",
        "line 3, column 3: 'x' is no 0, 1 or white space",
    ),
    Case("/", "line 1, column 1: '/' is no 0, 1 or white space"),
    Case(
        "01\u{b}",
        "line 1, column 3: byte 0B is no 0, 1 or white space",
    ),
    Case(
        "0\u{7f}",
        "line 1, column 2: byte 7F is no 0, 1 or white space",
    ),
    Case(
        "0\né1",
        "line 2, column 1: byte C3 is no 0, 1 or white space",
    ),
];

const COMMANDS: [Case; 20] = [
    Case("help", "help"),
    Case("--help", "help"),
    Case("-h", "help"),
    Case("help|me", "help"),
    Case("check", "check "),
    Case("check|03|3f5B", "check 03 3F 5B"),
    Case("check|03|3", "word 2 has an odd number of digits"),
    Case("encode", "encode "),
    Case("encode|03|3F", "encode 03 3F"),
    Case("encode|", "word 1 is empty"),
    Case("read|-", "read standard input"),
    Case("read|line.txt", "read file line.txt"),
    Case("read|--", "read file --"),
    Case("read|", "read file "),
    Case(
        "read",
        "no file is named: name one, or - for standard input",
    ),
    Case("read|a|b", "more than one file is named"),
    Case("Check", "no such command: bench --help lists them"),
    Case("checks|03", "no such command: bench --help lists them"),
    Case("chec", "no such command: bench --help lists them"),
    Case("", "no such command: bench --help lists them"),
];

// Four tests have these few lines each: one function for them would take the runtime, the cases and a closure, and be no shorter.
#[test]
fn hexadecimal_words(rt: HostRuntime) -> Result<(), Fail> {
    let heap = rt.alloc();
    for Case(given, told) in HEX {
        let words = words(heap, given)?;
        assert_eq!(rt; hex_outcome(heap, &words)?.as_str(), told);
    }
    let none: Vec<String> = Vec::new(heap);
    assert_eq!(rt; hex_outcome(heap, &none)?.as_str(), "");
    Ok(())
}

#[test]
fn bit_texts(rt: HostRuntime) -> Result<(), Fail> {
    for Case(given, told) in BITS {
        assert_eq!(rt; bits_outcome(rt.alloc(), given)?.as_str(), told);
    }
    Ok(())
}

#[test]
fn commands(rt: HostRuntime) -> Result<(), Fail> {
    let heap = rt.alloc();
    for Case(given, told) in COMMANDS {
        let words = words(heap, given)?;
        assert_eq!(rt; command_outcome(heap, &words)?.as_str(), told);
    }
    let none: Vec<String> = Vec::new(heap);
    assert_eq!(rt; command_outcome(heap, &none)?.as_str(), "help");
    Ok(())
}

#[test]
fn sequences(rt: HostRuntime) -> Result<(), Fail> {
    assert_eq!(rt; sequence_text(rt.alloc(), 0xEC5B)?.as_str(), "EC5B");
    assert_eq!(rt; sequence_text(rt.alloc(), 0x0A0F)?.as_str(), "0A0F");
    assert_eq!(rt; sequence_text(rt.alloc(), 0)?.as_str(), "0000");
    Ok(())
}

#[test]
fn check_reports(rt: HostRuntime) -> Result<(), Fail> {
    let heap = rt.alloc();
    let told = "bytes: 03 3F\nnumber of bytes: 2\ncheck sequence: EC5B, sent as 5B EC\nmatch: no\n";
    assert_eq!(rt; check_report(heap, &[0x03, 0x3F])?.as_str(), told);
    let told =
        "bytes: 03 3F 5B EC\nnumber of bytes: 4\ncheck sequence: 0F47, sent as 47 0F\nmatch: yes\n";
    assert_eq!(rt;
        check_report(heap, &[0x03, 0x3F, 0x5B, 0xEC])?.as_str(),
        told
    );
    let told = "bytes: none\nnumber of bytes: 0\ncheck sequence: 0000, sent as 00 00\nmatch: no\n";
    assert_eq!(rt; check_report(heap, &[])?.as_str(), told);
    Ok(())
}

#[test]
fn encode_reports(rt: HostRuntime) -> Result<(), Fail> {
    let heap = rt.alloc();
    let told = "bytes: 03 3F\n\
         check sequence: EC5B, sent as 5B EC\n\
         number of line bits: 49\n\
         0111111011000000111110100110110100011011101111110\n";
    assert_eq!(rt; encode_report(heap, &[0x03, 0x3F])?.as_str(), told);
    let told = "bytes: none\n\
         check sequence: 0000, sent as 00 00\n\
         number of line bits: 32\n\
         01111110000000000000000001111110\n";
    assert_eq!(rt; encode_report(heap, &[])?.as_str(), told);
    Ok(())
}

// What `read` tells of bits as text: a report, or the fault in the text.
const READINGS: [Case; 6] = [
    Case("", "line bits: 0\nstretches: 0\ngood frames: 0\n"),
    Case("0x", "line 1, column 2: 'x' is no 0, 1 or white space"),
    // a good frame, a flag that shares its 0 with the one before, and the frame with its last bit flipped
    Case(
        "01111110 11000000 111110100 11011010 00110111 01111110 1111110 11000000 111110100 11011010 00110110 01111110",
        "stretch 1: good, 32 bits, content 03 3F\n\
         stretch 2: ignored, 0 bits, content none\n\
         stretch 3: bad, 32 bits, content 03 3F\n\
         line bits: 97\n\
         stretches: 3\n\
         good frames: 1\n",
    ),
    // 24 bits, and 25
    Case(
        "01111110 000000000000000000000000 01111110 0000000000000000000000001 01111110",
        "stretch 1: ignored, 24 bits, content 00\n\
         stretch 2: bad, 25 bits, content 00 00\n\
         line bits: 73\n\
         stretches: 2\n\
         good frames: 0\n",
    ),
    // an abort between two flags
    Case(
        "01111110 0000 1111111 0 01111110",
        "line bits: 28\nstretches: 0\ngood frames: 0\n",
    ),
    // nothing counts before the first flag, whose first 0 must have come
    Case(
        "1111110 11000000 01111110",
        "line bits: 23\nstretches: 0\ngood frames: 0\n",
    ),
];

#[test]
fn read_reports(rt: HostRuntime) -> Result<(), Fail> {
    for Case(given, told) in READINGS {
        assert_eq!(rt; reading_outcome(rt.alloc(), given)?.as_str(), told);
    }
    Ok(())
}

#[test]
fn complaints(rt: HostRuntime) -> Result<(), Fail> {
    let heap = rt.alloc();
    let fault = Fault::NoBit {
        line: 3,
        column: 7,
        byte: b'x',
    };
    assert_eq!(rt;
        complaint(heap, "line.txt", fault)?.as_str(),
        "bench: line.txt, line 3, column 7: 'x' is no 0, 1 or white space"
    );
    let fault = Fault::EmptyWord { word: 2 };
    assert_eq!(rt;
        complaint(heap, "check", fault)?.as_str(),
        "bench: check, word 2 is empty"
    );
    let told = "bench: show: no such command: bench --help lists them";
    assert_eq!(rt;
        complaint(heap, "show", Fault::UnknownCommand)?.as_str(),
        told
    );
    assert_eq!(rt;
        complaint(heap, "read", Fault::Memory)?.as_str(),
        "bench: read: out of memory"
    );
    Ok(())
}
