//! The interface of a store, with its meaning.

ghost use Rattle.std.specs.Prelude.{◌≡◌, ◌==◌, nat_le, length, replicate, None, Ok};
ghost use Rattle.keys.specs.Digests.{value_room};
ghost use Rattle.stores.specs.Numbers.{find_numbers, put_numbers, refused_unless};
ghost use Rattle.stores.specs.Model.{Model, HeldMeans, FindMeans, PutMeans, FindPost, PutPost};

use crate::answers::{Answer, FindResult, PutResult, StoreError};
use keys::Key;
pub use keys::VALUE_ROOM;

/// A store of pairs of a key and a value of up to 2,048 bytes, which may fault and may forget.
pub trait Store {
    // the pairs held, the faults that can be raised, what a find and what a put may do
    ghost model: { Model Self };

    /// Looks for a value of a key, and fills a buffer of exactly 2,048 bytes with it and zeros behind.
    fn find(&mut self, key: &Key, buffer: &mut [u8]) -> FindResult
        ensures { FindPost model self.old key.now buffer.old (find_numbers result) buffer.new self.new };

    /// Puts a value of up to 2,048 bytes under a key.
    fn put(&mut self, key: &Key, value: &[u8]) -> PutResult
        ensures { PutPost model self.old key.now value.now (put_numbers result) self.new };

    // what is true of pairs and faults
    ghost held: { HeldMeans model };

    // what is true of finds
    ghost finding: { FindMeans model };

    // what is true of puts
    ghost putting: { PutMeans model };
}

/// Refuses a buffer that has not exactly the room of a value.
pub fn check_buffer(buffer: &[u8]) -> Result<(), StoreError>
    ensures { result ≡ refused_unless (length buffer.now == value_room) }
{
    if buffer.len() != VALUE_ROOM {
        return Err(StoreError::Refused);
    }
    Ok(())
}

/// Fills a slice with zeros.
pub fn blank(buffer: &mut [u8])
    ensures { buffer.new ≡ replicate (length buffer.old) 0 }
{
    buffer.fill(0);
}

/// The answer of a find that found no pair of its key; the buffer is filled with zeros.
pub fn missing(buffer: &mut [u8]) -> FindResult
    ensures answer { result ≡ Ok (record { value = None; first = None }) }
    ensures after { buffer.new ≡ replicate (length buffer.old) 0 }
{
    blank(buffer);
    Ok(Answer {
        value: None,
        first: None,
    })
}
