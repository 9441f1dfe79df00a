//! Making values, and their bytes.

ghost use Rattle.std.specs.Prelude.{◌≡◌, ◌≤◌, length};
ghost use Rattle.keys.specs.Digests.{value_room};
ghost use Rattle.stores.specs.Values.{value_bytes, ValueOf};

use super::Value;
use crate::answers::StoreError;
use keys::VALUE_ROOM;

/// The value of these bytes; refused where they are more than the room of a value.
impl<'a> TryFrom<&'a [u8]> for Value<'a> {
    type Error = StoreError;

    ghost try_from_gives = { ValueOf };

    fn try_from(bytes: &'a [u8]) -> Result<Value<'a>, StoreError> {
        if bytes.len() > VALUE_ROOM {
            return Err(StoreError::Refused);
        }
        Ok(Value { bytes })
    }
}

impl<'a> Value<'a> {
    /// The bytes of the value.
    pub fn as_bytes(&self) -> &'a [u8]
        ensures value { result.now ≡ value_bytes self.now }
        ensures short { length result.now ≤ value_room }
    {
        self.bytes
    }
}
