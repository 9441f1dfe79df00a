//! Making keys, and their bytes.

ghost use Rattle.std.specs.Prelude.{◌≡◌, length, if◌then◌else◌, Decides, ◌==◌, nat_eq};
ghost use Rattle.keys.specs.Keys.{key_size, make_key, key_words, key_bytes, read_key, same_key};

use super::{Key, WrongSize};
use numbers::{read_number, write_number};

impl Key {
    /// How many bytes a key is written in.
    pub const SIZE: usize = 36;

    /// The key of these words and this count.
    pub fn new(words: [u64; 4], count: u32) -> Key
        ensures { result ≡ make_key words count }
    {
        Key { words, count }
    }

    /// The digest's four words.
    pub fn words(&self) -> [u64; 4]
        ensures { result ≡ key_words self.now }
    {
        self.words
    }

    /// How many bytes were digested.
    pub fn count(&self) -> u32
        ensures { result ≡ self.now.count }
    {
        self.count
    }

    /// Writes the key into a slice of its size; a slice of another size is refused, and left as it is.
    pub fn write(&self, into: &mut [u8]) -> Result<(), WrongSize>
        ensures answer { result ≡ (if nat_eq (length into.old) key_size then Ok tt else Err (record {})) }
        ensures after { into.new ≡ (if nat_eq (length into.old) key_size then key_bytes self.now else into.old) }
    {
        if into.len() != Key::SIZE {
            return Err(WrongSize);
        }
        // kept: by place, since after a `zip` with `chunks_mut` a proof knows nothing of the bytes
        for (i, word) in self.words.iter().enumerate() {
            write_number(&mut into[8 * i..8 * i + 8], *word);
        }
        write_number(&mut into[32..36], u64::from(self.count));
        Ok(())
    }

    // kept: named as `u64::to_be_bytes` is; `From` would not say that this is the layout of files
    /// The bytes of the key.
    pub fn to_bytes(&self) -> [u8; 36]
        ensures { result ≡ key_bytes self.now }
    {
        let mut bytes = [0u8; Key::SIZE];
        self.write(&mut bytes).unwrap();
        bytes
    }

    // kept: every reader above answers an `Option` by `?`, and would have to turn the error of `TryFrom` back into one
    /// The key that a slice of a key's size holds; absent for another size.
    pub fn read(bytes: &[u8]) -> Option<Key>
        ensures { result ≡ read_key bytes.now }
    {
        if bytes.len() != Key::SIZE {
            return None;
        }
        let mut words = [0u64; 4];
        for (i, word) in words.iter_mut().enumerate() {
            *word = read_number(&bytes[8 * i..8 * i + 8])?;
        }
        let count = read_number(&bytes[32..36])?;
        Some(Key::new(words, count as u32))
    }
}
