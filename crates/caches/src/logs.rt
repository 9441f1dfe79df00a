//! The listing of a log.

ghost use Rattle.std.specs.Prelude.{◌≡◌, IfOk, string_bytes};
ghost use Rattle.entries.specs.Entries.{entry_of};
ghost use Rattle.caches.specs.Listings.{looks_like_log, pair_text, ends_well, entry_line, good_end, bad_end, last_line, log_listing};

use crate::pairs::pair_text;
use entries::{Entries, Entry};
use keys::{Digest, VALUE_ROOM};
use records::Kind;
use std::alloc::{AllocError, Global};

/// Whether a cache file is taken for a log: its first byte is that of the head of an entry.
pub fn looks_like_log(bytes: &[u8]) -> bool
    ensures { result ≡ looks_like_log bytes.now }
{
    bytes.first().is_some_and(|b| *b == u8::from(Kind::LogHead))
}

/// The pair of an entry as text.
fn entry_text<D: Digest>(heap: Global, entry: &Entry<'_>) -> Result<String, AllocError>
    ensures { IfOk result (λ t. string_bytes t ≡ pair_text D.LONGEST D.words (entry_of entry.now).part.key (entry_of entry.now).part.value) }
{
    let mut room = [0u8; VALUE_ROOM];
    entry.fill_value(&mut room).unwrap();
    pair_text::<D>(heap, &entry.key(), &room[..entry.value_len()])
}

/// The line of an entry.
fn entry_line<D: Digest>(heap: Global, entry: &Entry<'_>) -> Result<String, AllocError>
    ensures { IfOk result (λ t. string_bytes t ≡ entry_line D.LONGEST D.words (entry_of entry.now).part) }
{
    let pair = entry_text::<D>(heap, entry)?;
    format!(in heap; "{pair}\n")
}

/// Whether entries end as a store leaves them, by the bytes behind them.
fn ends_well(rest: &[u8]) -> bool
    ensures { result ≡ ends_well rest.now }
{
    matches!(rest, [] | [0, ..])
}

/// The last line where the entries end as a store leaves them.
fn good_end(heap: Global, place: usize) -> Result<String, AllocError>
    ensures { IfOk result (λ t. string_bytes t ≡ good_end place) }
{
    format!(in heap; "the entries end at byte {place}\n")
}

/// The last line where they do not.
fn bad_end(heap: Global, place: usize) -> Result<String, AllocError>
    ensures { IfOk result (λ t. string_bytes t ≡ bad_end place) }
{
    format!(in heap;
        "damaged at byte {place}: no whole entry begins there, and nothing behind it is read\n"
    )
}

/// The last line of a log's listing.
fn last_line(heap: Global, place: usize, rest: &[u8]) -> Result<String, AllocError>
    ensures { IfOk result (λ t. string_bytes t ≡ last_line place rest.now) }
{
    if ends_well(rest) {
        good_end(heap, place)
    } else {
        bad_end(heap, place)
    }
}

/// The lines of all entries of a log in order, then where they end.
pub fn log_listing<D: Digest>(heap: Global, bytes: &[u8]) -> Result<String, AllocError>
    ensures { IfOk result (λ t. string_bytes t ≡ log_listing D.LONGEST D.words bytes.now) }
{
    let mut text = String::new(heap);
    let mut rest = bytes;
    for entry in Entries::new(bytes) {
        let line = entry_line::<D>(heap, &entry)?;
        text.push_str(line.as_str())?;
        rest = entry.rest();
    }
    let last = last_line(heap, bytes.len() - rest.len(), rest)?;
    text.push_str(last.as_str())?;
    Ok(text)
}
