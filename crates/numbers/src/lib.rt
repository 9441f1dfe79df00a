//! Whole numbers as bytes, high byte first: one writer and one reader for every width.

#![tactic(auto)]

ghost use Rattle.std.specs.Prelude.{◌≡◌, length};
ghost use Rattle.numbers.specs.BigEndian.{big_endian, read_big_endian, RoundTrips};

/// Fills a slice with the lowest bytes of a number, high byte first.
pub fn write_number(into: &mut [u8], number: u64)
    ensures { into.new ≡ big_endian (length into.old) number }
{
    let bytes = number.to_be_bytes();
    let zeros = into.len().saturating_sub(bytes.len());
    let skipped = bytes.len() - (into.len() - zeros);
    into[..zeros].fill(0);
    into[zeros..].copy_from_slice(&bytes[skipped..]);
}

/// The number that some bytes write; absent where there are more than eight.
pub fn read_number(bytes: &[u8]) -> Option<u64>
    ensures { result ≡ read_big_endian bytes.now }
{
    let mut word = [0u8; 8];
    let start = word.len().checked_sub(bytes.len())?;
    word[start..].copy_from_slice(bytes);
    Some(u64::from_be_bytes(word))
}

/// Carries the theorem that numbers read back as they were written, and no other bytes read as them.
pub fn numbers_round_trip()
    ensures { RoundTrips }
{}
