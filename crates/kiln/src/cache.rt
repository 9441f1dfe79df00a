//! `kiln cache list`: the pairs of a cache file.

use crate::fault::{Fault, FileFault};
use crate::files::read_up_to;
use caches::{log_listing, looks_like_log, slots_listing};
use commands::Layout;
use keys::Fnv1a;
use log_store::LOG_ROOM;
use slots::Slots;

/// Prints the pairs of a table of slots.
fn show_slots<'a>(rt: &HostRuntime, name: &'a str, bytes: Vec<u8>) -> Result<(), Fault<'a>> {
    let len = bytes.len();
    let Ok(store) = Slots::new(bytes) else {
        return Err(Fault::File {
            name,
            reason: FileFault::NoSlot { len },
        });
    };
    let count = store.count();
    let listing = slots_listing::<Fnv1a>(rt.alloc(), &store)?;
    print!(rt; "{name}: {count} slots\n{listing}")?;
    Ok(())
}

/// Prints the pairs of a log.
fn show_log<'a>(rt: &HostRuntime, name: &'a str, bytes: &[u8]) -> Result<(), Fault<'a>> {
    let len = bytes.len();
    if len > LOG_ROOM {
        return Err(Fault::File {
            name,
            reason: FileFault::LongLog,
        });
    }
    let listing = log_listing::<Fnv1a>(rt.alloc(), bytes)?;
    print!(rt; "{name}: a log of {len} bytes\n{listing}")?;
    Ok(())
}

/// Lists a cache file in the layout that is named, or in the one that its first byte tells.
pub fn list<'a>(rt: &HostRuntime, layout: Option<Layout>, name: &'a str) -> Result<(), Fault<'a>> {
    // a table of slots uses less than a log: one byte more shows a file that is too long
    let bytes = read_up_to(rt, name, LOG_ROOM as u64 + 1)?;
    let is_log = layout.map_or_else(
        || looks_like_log(bytes.as_slice()),
        |layout| layout == Layout::Log,
    );
    if is_log {
        show_log(rt, name, bytes.as_slice())
    } else {
        show_slots(rt, name, bytes)
    }
}
