//! The command line of `kiln`: which command its words ask for, or what is wrong with them.

#![tactic(auto)]

ghost use Rattle.std.specs.Prelude.{◌≡◌, Some, None, map, length, string_bytes, codes, nat_lt, if◌then◌else◌};
ghost use Rattle.std.specs.Option.{option_map};
ghost use Rattle.commands.specs.Reading.{reading, is_option, first_option, read_files, read_digest, read_key, from_place, read_action, read_one_file, read_layout, read_list, read_cache, read_command, read_words};
ghost use Rattle.commands.specs.Names.{NamesDigest, NamesLayout, misuse_text};

use std::error::Error;
use std::fmt;
use std::str::FromStr;

/// A name that is none of those there are.
#[derive(Clone, Copy, Debug, PartialEq, Eq)]
pub struct UnknownName;

impl fmt::Display for UnknownName {
    ghost output = { λ _. Some (codes "there is no such name") };

    fn fmt<W: fmt::Write>(&self, f: &mut fmt::Formatter<W>) -> fmt::Result {
        f.write_str("there is no such name")
    }
}

impl Error for UnknownName {}

/// A digest, by the name that the option `--digest` gives it.
#[derive(Clone, Copy, Debug, PartialEq, Eq)]
pub enum DigestName {
    Fnv1a,
    Tally,
}

impl FromStr for DigestName {
    type Err = UnknownName;

    ghost from_str_gives = { NamesDigest };

    fn from_str(name: &str) -> Result<Self, UnknownName> {
        match name {
            "fnv1a" => Ok(DigestName::Fnv1a),
            "tally" => Ok(DigestName::Tally),
            _ => Err(UnknownName),
        }
    }
}

/// The layout of a cache file, by the name that the option `--as` gives it.
#[derive(Clone, Copy, Debug, PartialEq, Eq)]
pub enum Layout {
    Slots,
    Log,
}

impl FromStr for Layout {
    type Err = UnknownName;

    ghost from_str_gives = { NamesLayout };

    fn from_str(name: &str) -> Result<Self, UnknownName> {
        match name {
            "slots" => Ok(Layout::Slots),
            "log" => Ok(Layout::Log),
            _ => Err(UnknownName),
        }
    }
}

/// What a command line asks for.
#[derive(Clone, Copy, Debug, PartialEq, Eq)]
pub enum Command<'a> {
    Help,
    Key {
        digest: DigestName,
        files: &'a [String],
    },
    Action {
        letter: &'a str,
        arguments: &'a [String],
        inputs: &'a [String],
    },
    /// Lists a cache file, whose layout its first byte tells where none is named.
    ListCache {
        layout: Option<Layout>,
        file: &'a str,
    },
}

/// What is wrong with a command line.
#[derive(Clone, Copy, Debug, PartialEq, Eq)]
pub enum Misuse<'a> {
    NoCommand,
    UnknownCommand(&'a str),
    NoDigest,
    UnknownDigest(&'a str),
    StrayOption(&'a str),
    NoFile,
    NoLetter,
    NoFrom,
    Incomplete(&'a str),
    NoLayout,
    UnknownLayout(&'a str),
    OneFileOnly(&'a str),
}

impl fmt::Display for Misuse<'_> {
    ghost output = { λ m. Some (misuse_text m) };

    fn fmt<W: fmt::Write>(&self, f: &mut fmt::Formatter<W>) -> fmt::Result {
        match self {
            Misuse::NoCommand => f.write_str("no command"),
            Misuse::UnknownCommand(word) => write!(f, "there is no command '{word}'"),
            Misuse::NoDigest => f.write_str("--digest wants a name, fnv1a or tally"),
            Misuse::UnknownDigest(word) => {
                write!(f, "there is no digest '{word}': fnv1a and tally are")
            }
            Misuse::StrayOption(word) => {
                write!(
                    f,
                    "'{word}' is no option here; options stand before the files"
                )
            }
            Misuse::NoFile => f.write_str("no file is named"),
            Misuse::NoLetter => f.write_str("an action wants a letter, arguments, 'from' and keys"),
            Misuse::NoFrom => f.write_str("an action wants 'from' before its keys"),
            Misuse::Incomplete(word) => {
                write!(f, "'{word}' wants another word, as in 'cache list'")
            }
            Misuse::NoLayout => f.write_str("--as wants a layout, slots or log"),
            Misuse::UnknownLayout(word) => {
                write!(f, "there is no layout '{word}': slots and log are")
            }
            Misuse::OneFileOnly(word) => {
                write!(f, "one file at a time; '{word}' is one too many")
            }
        }
    }
}

impl Error for Misuse<'_> {}

/// Whether a word is an option: it begins with two hyphens.
fn is_option(word: &str) -> bool
    ensures { result ≡ is_option word.now }
{
    word.starts_with("--")
}

/// The first word that is an option.
fn first_option(words: &[String]) -> Option<&str>
    ensures { option_map (λ x. x.now) result ≡ first_option (map string_bytes words.now) }
{
    words
        .iter()
        .map(|word| word.as_str())
        .find(|word| is_option(word))
}

/// File names, none of which may look like an option.
fn read_files(digest: DigestName, files: &[String]) -> Result<Command<'_>, Misuse<'_>>
    ensures { reading result ≡ read_files digest (map string_bytes files.now) }
{
    if let Some(option) = first_option(files) {
        return Err(Misuse::StrayOption(option));
    }
    if files.is_empty() {
        return Err(Misuse::NoFile);
    }
    Ok(Command::Key { digest, files })
}

/// The name of a digest, then file names.
fn read_digest(words: &[String]) -> Result<Command<'_>, Misuse<'_>>
    ensures { reading result ≡ read_digest (map string_bytes words.now) }
{
    let (name, files) = words.split_first().ok_or(Misuse::NoDigest)?;
    let digest = name.parse().map_err(|_| Misuse::UnknownDigest(name))?;
    read_files(digest, files)
}

/// The words behind `key`: perhaps a digest, then file names.
fn read_key(words: &[String]) -> Result<Command<'_>, Misuse<'_>>
    ensures { reading result ≡ read_key (map string_bytes words.now) }
{
    match words {
        [option, rest @ ..] if option.as_str() == "--digest" => read_digest(rest),
        _ => read_files(DigestName::Fnv1a, words),
    }
}

/// How many words stand before the first `from`; absent where there is none.
fn from_place(words: &[String]) -> Option<usize>
    ensures { result ≡ (if nat_lt (from_place (map string_bytes words.now)) (length words.now) then Some (from_place (map string_bytes words.now)) else None) }
{
    words.iter().position(|word| word.as_str() == "from")
}

/// The words behind `action`: a letter, arguments up to the first `from`, and keys.
fn read_action(words: &[String]) -> Result<Command<'_>, Misuse<'_>>
    ensures { reading result ≡ read_action (map string_bytes words.now) }
{
    let (letter, rest) = words.split_first().ok_or(Misuse::NoLetter)?;
    let place = from_place(rest).ok_or(Misuse::NoFrom)?;
    Ok(Command::Action {
        letter,
        arguments: &rest[..place],
        inputs: &rest[place + 1..],
    })
}

/// One file name, which may not look like an option, and nothing behind it.
fn read_one_file(layout: Option<Layout>, words: &[String]) -> Result<Command<'_>, Misuse<'_>>
    ensures { reading result ≡ read_one_file layout (map string_bytes words.now) }
{
    if let Some(option) = first_option(words) {
        return Err(Misuse::StrayOption(option));
    }
    match words {
        [] => Err(Misuse::NoFile),
        [file] => Ok(Command::ListCache { layout, file }),
        [_, extra, ..] => Err(Misuse::OneFileOnly(extra)),
    }
}

/// The name of a layout, then a file.
fn read_layout(words: &[String]) -> Result<Command<'_>, Misuse<'_>>
    ensures { reading result ≡ read_layout (map string_bytes words.now) }
{
    let (name, rest) = words.split_first().ok_or(Misuse::NoLayout)?;
    let layout = name.parse().map_err(|_| Misuse::UnknownLayout(name))?;
    read_one_file(Some(layout), rest)
}

/// The words behind `cache list`: perhaps a layout, then a file.
fn read_list(words: &[String]) -> Result<Command<'_>, Misuse<'_>>
    ensures { reading result ≡ read_list (map string_bytes words.now) }
{
    match words {
        [option, rest @ ..] if option.as_str() == "--as" => read_layout(rest),
        _ => read_one_file(None, words),
    }
}

/// The words behind `cache`, whose name comes first.
fn read_cache<'a>(name: &'a str, words: &'a [String]) -> Result<Command<'a>, Misuse<'a>>
    ensures { reading result ≡ read_cache name.now (map string_bytes words.now) }
{
    let (part, rest) = words.split_first().ok_or(Misuse::Incomplete(name))?;
    match part.as_str() {
        "list" => read_list(rest),
        _ => Err(Misuse::UnknownCommand(part)),
    }
}

/// The command that the words behind the program's name ask for.
pub fn read_command(words: &[String]) -> Result<Command<'_>, Misuse<'_>>
    ensures { reading result ≡ read_command (map string_bytes words.now) }
{
    let (name, rest) = words.split_first().ok_or(Misuse::NoCommand)?;
    match name.as_str() {
        "help" | "--help" => Ok(Command::Help),
        "key" => read_key(rest),
        "action" => read_action(rest),
        _ => Err(Misuse::UnknownCommand(name)),
    }
}

/// The command that the words behind the program's name ask for, where they may name a cache too.
pub fn read_words(words: &[String]) -> Result<Command<'_>, Misuse<'_>>
    ensures { reading result ≡ read_words (map string_bytes words.now) }
{
    match words {
        [name, rest @ ..] if name.as_str() == "cache" => read_cache(name, rest),
        _ => read_command(words),
    }
}
