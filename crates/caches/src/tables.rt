//! The listing of slots.

ghost use Rattle.std.specs.Prelude.{◌≡◌, IfOk, string_bytes};
ghost use Rattle.slots.specs.Table.{pair_at, is_damaged_at};
ghost use Rattle.slots.specs.Storing.{bytes_of};
ghost use Rattle.caches.specs.Listings.{about_slot, slot_line, slots_listing};

use crate::pairs::pair_text;
use keys::Digest;
use slots::Slots;
use std::alloc::{AllocError, Global};

/// The line about a slot.
fn about_slot(heap: Global, i: usize, text: &str) -> Result<String, AllocError>
    ensures { IfOk result (λ t. string_bytes t ≡ about_slot i text.now) }
{
    format!(in heap; "slot {i}  {text}\n")
}

/// The line of a slot: its pair, or that it is damaged; nothing for an empty slot.
fn slot_line<D: Digest>(heap: Global, store: &Slots, i: usize) -> Result<String, AllocError>
    ensures { IfOk result (λ t. string_bytes t ≡ slot_line D.LONGEST D.words i (is_damaged_at i (bytes_of store.now)) (pair_at i (bytes_of store.now))) }
{
    match store.pair_at(i) {
        Some((key, value)) => {
            let pair = pair_text::<D>(heap, &key, value)?;
            about_slot(heap, i, pair.as_str())
        }
        None if store.is_damaged_at(i) => about_slot(heap, i, "damaged, read as empty"),
        None => Ok(String::new(heap)),
    }
}

/// The lines of all slots that hold a pair or are damaged, in order.
pub fn slots_listing<D: Digest>(heap: Global, store: &Slots) -> Result<String, AllocError>
    ensures { IfOk result (λ t. string_bytes t ≡ slots_listing D.LONGEST D.words (bytes_of store.now)) }
{
    let mut text = String::new(heap);
    // kept: a slot is asked for by its number, and its line says the number
    for i in 0..store.count() {
        let line = slot_line::<D>(heap, store, i)?;
        text.push_str(line.as_str())?;
    }
    Ok(text)
}
