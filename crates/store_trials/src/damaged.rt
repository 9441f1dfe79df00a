//! Stores over damaged bytes: what still reads is found, what does not is missing, and puts go on.

use anyhow::Context;
use keys::{Fnv1a, Key, key_of};
use lists::are_zeros;
use log_store::Log;
use score::Report;
use slots::Slots;
use std::fmt;
use stores::Store;

const GAIN: &[u8] = b"gain 1 2\n";

const HOLD: &[u8] = b"hold 15\n";

const RAMPS: &[u8] = b"ramp 60 200\nramp 120 600\nramp 90 1";

/// A byte that is damaged: its place, and what it becomes.
#[derive(Clone, Copy)]
struct Damage {
    at: usize,
    to: u8,
}

impl fmt::Display for Damage {
    fn fmt<W: fmt::Write>(&self, f: &mut fmt::Formatter<W>) -> fmt::Result {
        write!(f, "byte {} set to {}", self.at, self.to)
    }
}

impl Damage {
    /// Sets the byte.
    fn apply(self, bytes: &mut [u8]) {
        if let Some(byte) = bytes.get_mut(self.at) {
            *byte = self.to;
        }
    }
}

/// A byte of a log of three entries (GAIN, RAMPS, nothing) that is damaged, and which of them are still found.
const LOG_DAMAGE: [(Damage, [bool; 3]); 9] = [
    // the kind of a head, a length, the kind of a block, the padding: the log ends before that entry
    (Damage { at: 0, to: 4 }, [false, false, false]),
    (Damage { at: 37, to: 1 }, [false, false, false]),
    (Damage { at: 41, to: 5 }, [false, false, false]),
    (Damage { at: 60, to: 1 }, [false, false, false]),
    (Damage { at: 74, to: 6 }, [true, false, false]),
    (Damage { at: 180, to: 1 }, [true, false, false]),
    (Damage { at: 181, to: 0 }, [true, true, false]),
    // a key or a value: the entry is whole, and another one
    (Damage { at: 1, to: 255 }, [false, true, true]),
    (Damage { at: 42, to: 0 }, [false, true, true]),
];

/// A byte of a slot of GAIN that is damaged, and what is then found under its key; the next slot has HOLD under it.
const SLOT_DAMAGE: [(Damage, &[u8]); 6] = [
    (Damage { at: 0, to: 1 }, GAIN),
    (Damage { at: 0, to: 2 }, HOLD),
    (Damage { at: 37, to: 1 }, HOLD),
    (Damage { at: 40, to: 3 }, b"gai"),
    (Damage { at: 1, to: 255 }, HOLD),
    (Damage { at: 2089, to: 0 }, GAIN),
];

/// Whether a find gives exactly a value, and zeros behind it.
fn finds<S: Store>(store: &mut S, key: &Key, value: &[u8]) -> bool {
    let mut buffer = [255u8; 2048];
    let Ok(answer) = store.find(key, &mut buffer) else {
        return false;
    };
    let rest = buffer.strip_prefix(value);
    answer.value == Some(value.len()) && rest.is_some_and(|r| are_zeros(r))
}

/// Whether a find gives exactly a value under its key.
fn has<S: Store>(store: &mut S, value: &[u8]) -> anyhow::Result<bool> {
    let key = key_of::<Fnv1a>(value).context("too long")?;
    Ok(finds(store, &key, value))
}

/// Whether a put of a value under its key is kept.
fn keeps<S: Store>(store: &mut S, value: &[u8]) -> anyhow::Result<bool> {
    let key = key_of::<Fnv1a>(value).context("too long")?;
    Ok(store.put(&key, value).is_ok())
}

/// Whether a find under the key of no bytes gives nothing, not even another value.
fn lacks_empty(store: &mut Log) -> anyhow::Result<bool> {
    let key = key_of::<Fnv1a>(b"").context("too long")?;
    let mut buffer = [255u8; 2048];
    let missing = store
        .find(&key, &mut buffer)
        .is_ok_and(|answer| answer.value.is_none());
    Ok(missing && are_zeros(&buffer))
}

/// Whether a log finds which of its three values, and no others.
fn has_left(store: &mut Log, left: [bool; 3]) -> anyhow::Result<bool> {
    let [gain, ramps, empty] = left;
    // a damaged value is found under its key as another one; the value of no bytes has none that could be damaged
    let rest = if empty {
        has(store, b"")?
    } else {
        lacks_empty(store)?
    };
    Ok(has(store, GAIN)? == gain && has(store, RAMPS)? == ramps && rest)
}

/// Whether a damaged log finds which of its entries, before and after a put that goes where it breaks off.
fn try_log(rt: &HostRuntime, damage: Damage, left: [bool; 3]) -> anyhow::Result<bool> {
    let mut good = Log::new(7, vec![in rt.alloc(); 0; 300]?)?;
    let kept = keeps(&mut good, GAIN)? && keeps(&mut good, RAMPS)? && keeps(&mut good, b"")?;
    let mut bytes = good.into_bytes();
    damage.apply(bytes.as_mut_slice());
    let mut store = Log::new(7, bytes)?;
    let before = has_left(&mut store, left)?;
    let holds = keeps(&mut store, HOLD)? && has(&mut store, HOLD)?;
    let after = has_left(&mut store, left)? && has(&mut store, HOLD)?;
    Ok(kept && before && holds && after)
}

/// Writes bytes into a slot from a place on.
fn plant(slot: &mut [u8], place: usize, from: &[u8]) {
    for (at, b) in slot.iter_mut().skip(place).zip(from.iter()) {
        *at = *b;
    }
}

/// Whether a damaged table of slots finds a value, and takes puts as before.
fn try_slots(rt: &HostRuntime, damage: Damage, value: &[u8]) -> anyhow::Result<bool> {
    let mut bytes: Vec<u8> = vec![in rt.alloc(); 0; 4200]?;
    let key = key_of::<Fnv1a>(GAIN).context("too long")?;
    // the layout as docs/FORMATS.md has it, and not as the code that is tried says
    let slots = bytes.as_mut_slice().chunks_exact_mut(2089);
    for (slot, value) in slots.zip([GAIN, HOLD]) {
        plant(slot, 0, &[1]);
        plant(slot, 1, &key.to_bytes());
        plant(slot, 37, &u32::try_from(value.len())?.to_be_bytes());
        plant(slot, 41, value);
    }
    damage.apply(bytes.as_mut_slice());
    let mut store = Slots::new(bytes)?;
    let before = finds(&mut store, &key, value);
    Ok(before && keeps(&mut store, RAMPS)? && has(&mut store, RAMPS)?)
}

/// Whether stores over bytes that look random take a value and give it back.
fn try_random(rt: &HostRuntime, seed: u64) -> anyhow::Result<bool> {
    let mut bytes: Vec<u8> = vec![in rt.alloc(); 0; 8400]?;
    let mut state = seed;
    for b in bytes.as_mut_slice().iter_mut() {
        state = state
            .wrapping_mul(6364136223846793005)
            .wrapping_add(1442695040888963407);
        *b = (state >> 56) as u8;
    }
    let mut journal = Log::new(7, bytes.clone()?)?;
    let mut store = Slots::new(bytes)?;
    let mut good = true;
    for value in [GAIN, RAMPS, HOLD] {
        good = good && keeps(&mut store, value)? && has(&mut store, value)?;
        good = good && keeps(&mut journal, value)? && has(&mut journal, value)?;
    }
    Ok(good && has(&mut journal, GAIN)?)
}

/// Tries all of these.
pub fn try_damaged_stores(report: &mut Report<'_, HostRuntime>) -> anyhow::Result<()> {
    for (damage, left) in LOG_DAMAGE.iter() {
        let good = try_log(report.rt, *damage, *left)?;
        report.case(good, &format_args!("log with {damage}"))?;
    }
    for (damage, value) in SLOT_DAMAGE.iter() {
        let good = try_slots(report.rt, *damage, value)?;
        let size = value.len();
        report.case(
            good,
            &format_args!("slots with {damage}: {size} bytes found"),
        )?;
    }
    for seed in 1..9 {
        let good = try_random(report.rt, seed)?;
        report.case(
            good,
            &format_args!("slots and log over random bytes, seed {seed}"),
        )?;
    }
    Ok(())
}
