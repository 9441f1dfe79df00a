//! The program `kiln`: reads its arguments and files, calls the library, prints.

#![tactic(auto)]

mod cache;
mod fault;
mod files;

use actions::{Action, Argument};
use commands::{Command, DigestName, read_words};
use fault::{Fault, FileFault};
use files::read_up_to;
use keys::{Digest, Fnv1a, Key, Tally};
use listing::{action_lines, key_line};
use std::process::ExitCode;
use std::{env, io};

const USAGE: &str = "kiln: settings for kiln controllers, built from texts

usage:
  kiln key [--digest fnv1a|tally] FILE...
      prints the key of each file (36 bytes in hexadecimal), its length and its name;
      the digest is fnv1a unless another is named; a file may have up to 65,536 bytes
  kiln action LETTER [ARG..] from KEY..
      prints the action text of a step and its FNV-1a key, under which a trace of the step is kept;
      the letter is A to Z, up to 2 arguments have up to 16 bytes each, and 1 to 4 keys are given as
      kiln key prints them
  kiln cache list [--as slots|log] FILE
      prints the pairs of a cache file: key, length, and whether the key is the FNV-1a key of the value
      (own-key) or not (other-key: a trace, another digest, or damage); a damaged file is listed as far
      as it reads, and the place is said; without --as, a file whose first byte is 5 is taken for a log
  kiln help
      prints this text

A file whose name begins with two hyphens is given as ./--NAME.";

/// The words behind the program's name.
fn words(rt: &HostRuntime) -> io::Result<Vec<String>> {
    Ok(env::args(rt)?.skip(1).collect(rt.alloc())?)
}

/// Says what is wrong.
fn say(rt: &HostRuntime, fault: &Fault<'_>) -> io::Result<()> {
    eprintln!(rt; "kiln: {fault}")
}

/// The line of a file's key.
fn file_line<'a, D: Digest>(rt: &HostRuntime, name: &'a str) -> Result<String, Fault<'a>> {
    let most = D::LONGEST;
    let bytes = read_up_to(rt, name, u64::from(most) + 1)?;
    let line = key_line::<D>(rt.alloc(), bytes.as_slice(), name)?;
    line.ok_or(Fault::File {
        name,
        reason: FileFault::TooLong { most },
    })
}

/// Prints the key of each file, or why it has none.
fn show_keys<'a, D: Digest>(rt: &HostRuntime, files: &'a [String]) -> Result<(), Fault<'a>> {
    let mut failed: usize = 0;
    for name in files {
        match file_line::<D>(rt, name.as_str()) {
            Ok(line) => println!(rt; "{line}")?,
            Err(Fault::System(error)) => return Err(Fault::System(error)),
            Err(fault) => {
                say(rt, &fault)?;
                failed = failed.saturating_add(1);
            }
        }
    }
    if failed > 0 {
        let all = files.len();
        return Err(Fault::NoKeys { failed, all });
    }
    Ok(())
}

/// The letter that a word is.
fn letter_of(word: &str) -> Option<u8> {
    match word.as_bytes() {
        [letter] => Some(*letter),
        _ => None,
    }
}

/// Prints the text of an action and its key.
fn show_action<'a>(
    rt: &HostRuntime,
    letter: &'a str,
    arguments: &'a [String],
    inputs: &'a [String],
) -> Result<(), Fault<'a>> {
    let arguments: Vec<Argument> = arguments
        .iter()
        .map(|word| Argument::new(word.as_bytes()).ok_or(Fault::NoArgument(word.as_str())))
        .try_collect(rt.alloc())?;
    let keys: Vec<Key> = inputs
        .iter()
        .map(|word| word.parse().map_err(|_| Fault::NoKey(word.as_str())))
        .try_collect(rt.alloc())?;
    let action = letter_of(letter)
        .and_then(|letter| Action::new(letter, arguments.as_slice(), keys.as_slice()))
        .ok_or(Fault::NoAction)?;
    let lines = action_lines::<Fnv1a>(rt.alloc(), &action)?;
    println!(rt; "{lines}")?;
    Ok(())
}

/// Does what some words ask for.
fn run<'a>(rt: &HostRuntime, words: &'a [String]) -> Result<(), Fault<'a>> {
    match read_words(words).map_err(Fault::Misuse)? {
        Command::Help => {
            println!(rt; "{USAGE}")?;
            Ok(())
        }
        Command::Key { digest, files } => match digest {
            DigestName::Fnv1a => show_keys::<Fnv1a>(rt, files),
            DigestName::Tally => show_keys::<Tally>(rt, files),
        },
        Command::Action {
            letter,
            arguments,
            inputs,
        } => show_action(rt, letter, arguments, inputs),
        Command::ListCache { layout, file } => cache::list(rt, layout, file),
    }
}

fn main(rt: HostRuntime) -> ExitCode {
    let Ok(words) = words(&rt) else {
        return ExitCode::FAILURE;
    };
    match run(&rt, words.as_slice()) {
        Ok(()) => ExitCode::SUCCESS,
        Err(Fault::System(_)) => ExitCode::FAILURE,
        Err(fault) => {
            // where standard error fails too, nobody can be told
            let _ = say(&rt, &fault);
            ExitCode::FAILURE
        }
    }
}
