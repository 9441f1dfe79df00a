//! Formats: the worked examples of docs/FORMATS.md, and what readers answer to damaged bytes.

use actions::{Action, Argument};
use anyhow::Context;
use entries::{entry_size, read_entry, write_entry};
use hexadecimal::hex_text;
use keys::{Fnv1a, Key, key_of};
use records::{read_result, write_result};
use score::Report;
use std::alloc::{AllocError, Global};

const UPPER: &str =
    "015503af63dc4c8601ec8c0000000000000000000000000000000000000000000000000000000100";

const KEEP: &str =
    "014b02046761696e00000000000000000000000003af63dc4c8601ec8c0000000000000000000000000000000000000000000000000000000103af63df4c8601f1a50000000000000000000000000000000000000000000000000000000100";

const RESULT: &str = "04af63dc4c8601ec8c00000000000000000000000000000000000000000000000000000001";

const ENTRY: &str =
    "05f3a246a92dba27e0000000000000000000000000000000000000000000000000000000080000000806686f6c642031350a000000000000000000000000000000000000000000000000";

/// The key of a short text.
fn key(text: &[u8]) -> anyhow::Result<Key> {
    key_of::<Fnv1a>(text).context("too long")
}

/// Whether bytes are those that a text of digits writes.
fn is_hex(rt: &HostRuntime, bytes: &[u8], digits: &str) -> anyhow::Result<bool> {
    let text = hex_text(rt.alloc(), bytes)?;
    Ok(text.as_str() == digits)
}

/// An action of these parts.
fn action(letter: u8, arguments: &[Argument], inputs: &[Key]) -> anyhow::Result<Action> {
    Action::new(letter, arguments, inputs).context("no action")
}

/// Tries that an action has a text of that size and those digits, and reads back from it.
fn try_action(
    report: &mut Report<'_, HostRuntime>,
    action: &Action,
    digits: &str,
) -> anyhow::Result<()> {
    let text = action.text();
    let bytes = text.as_slice();
    let size = bytes.len();
    let back = is_hex(report.rt, bytes, digits)? && Action::read(bytes).is_some();
    report.case(
        back,
        &format_args!("an action text of {size} bytes reads back"),
    )?;
    let cut = matches!(bytes, [front @ .., _] if Action::read(front).is_none());
    report.case(cut, &"one byte less does not")?;
    Ok(())
}

/// How texts read that are damaged in one byte.
#[derive(Clone, Copy)]
struct Damaged {
    refused: u32,
    other: u32,
    good: bool,
}

/// Changes each byte of an action text in turn: it then reads as nothing, or as another action of just that text.
fn damage(heap: Global, text: &[u8]) -> Result<Damaged, AllocError> {
    let mut seen = Damaged {
        refused: 0,
        other: 0,
        good: true,
    };
    for (place, byte) in text.iter().enumerate() {
        let mut damaged = Vec::from_slice(heap, text)?;
        damaged[place] = *byte ^ 1;
        match Action::read(damaged.as_slice()) {
            None => seen.refused = seen.refused.saturating_add(1),
            Some(changed) => {
                seen.other = seen.other.saturating_add(1);
                seen.good = seen.good && changed.text().as_slice() == damaged.as_slice();
            }
        }
    }
    Ok(seen)
}

fn try_damaged(report: &mut Report<'_, HostRuntime>, action: &Action) -> anyhow::Result<()> {
    let Damaged {
        refused,
        other,
        good,
    } = damage(report.rt.alloc(), action.text().as_slice())?;
    report.case(
        good,
        &format_args!("damaged in one byte: {refused} read as nothing, {other} as another action"),
    )?;
    Ok(())
}

/// A result record: 37 bytes, and nothing behind them.
fn try_result(report: &mut Report<'_, HostRuntime>) -> anyhow::Result<()> {
    let key = key(b"a")?;
    let mut room = [0u8; 38];
    let written = write_result(&key, &mut room) == Some(37);
    let same = is_hex(report.rt, &room[0..37], RESULT)?;
    let back = read_result(&room[0..37]) == Some(key);
    report.case(
        written && same && back,
        &"a result record of 37 bytes reads back",
    )?;
    report.case(read_result(&room).is_none(), &"one byte more does not")?;
    report.case(
        write_result(&key, &mut room[0..36]).is_none(),
        &"36 bytes have no room for it",
    )?;
    Ok(())
}

/// A log entry: its bytes, and that it reads back with what lies behind it.
fn try_entry(report: &mut Report<'_, HostRuntime>) -> anyhow::Result<()> {
    let value = b"hold 15\n";
    let key = key(value)?;
    let mut room = [255u8; 80];
    let written = write_entry(&key, value, &mut room) == Some(74);
    let same = is_hex(report.rt, &room[0..74], ENTRY)?;
    let back = read_entry(&room).is_some_and(|entry| {
        entry.key() == key && entry.has_value(value) && entry.rest().len() == 6
    });
    report.case(
        written && same && back,
        &"a log entry of 74 bytes reads back",
    )?;
    room[73] = 1;
    report.case(
        read_entry(&room).is_none(),
        &"one with a padding byte of 1 does not",
    )?;
    report.case(
        read_entry(&room[0..73]).is_none(),
        &"one that is cut does not",
    )?;
    Ok(())
}

/// Sizes of log entries by the length of the value.
fn try_sizes(report: &mut Report<'_, HostRuntime>) -> anyhow::Result<()> {
    for (length, size) in [(0, 41), (32, 74), (33, 107), (2048, 2153)] {
        report.case(
            entry_size(length) == Some(size),
            &format_args!("a value of {length} bytes takes {size}"),
        )?;
    }
    report.case(
        entry_size(2049).is_none(),
        &"a value of 2049 bytes has no entry",
    )?;
    Ok(())
}

/// What makes an action, and what does not.
fn try_making(report: &mut Report<'_, HostRuntime>) -> anyhow::Result<()> {
    let one = [key(b"a")?];
    let five = [one[0]; 5];
    let letters = Action::new(b'A', &[], &one).is_some() && Action::new(b'Z', &[], &one).is_some();
    let others = Action::new(b'@', &[], &one).is_none() && Action::new(b'[', &[], &one).is_none();
    let inputs = Action::new(b'J', &[], &[]).is_none() && Action::new(b'J', &[], &five).is_none();
    let longest = Argument::new(b"sixteen_bytes_no").is_some();
    let longer = Argument::new(b"seventeen_bytes_n").is_none();
    let bytes = Argument::new(b"!~").is_some() && Argument::new(b" ").is_none();
    let empty = Argument::new(b"").is_none() && Argument::new(b"\x7f").is_none();
    report.case(
        letters && others && inputs && longest && longer && bytes && empty,
        &"letters, arguments and inputs at their limits",
    )?;
    Ok(())
}

/// Tries all of these.
pub fn try_formats(report: &mut Report<'_, HostRuntime>) -> anyhow::Result<()> {
    let keys = [key(b"a")?, key(b"b")?];
    let gain = Argument::new(b"gain").context("no argument")?;
    let upper = action(b'U', &[], &keys[..1])?;
    let keep = action(b'K', &[gain], &keys)?;
    try_action(report, &upper, UPPER)?;
    try_action(report, &keep, KEEP)?;
    try_damaged(report, &keep)?;
    try_making(report)?;
    try_result(report)?;
    try_entry(report)?;
    try_sizes(report)
}
