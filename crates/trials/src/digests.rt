//! Digests: published vectors, sums worked out by hand, the longest inputs.

use keys::{Digest, Fnv1a, Tally, key_of};
use score::Report;
use std::{fmt, io};

/// Texts with the first word of their digest, as the authors of FNV published them.
const FNV1A: [(&[u8], u64); 24] = [
    (b"", 0xcbf29ce484222325),
    (b"a", 0xaf63dc4c8601ec8c),
    (b"b", 0xaf63df4c8601f1a5),
    (b"c", 0xaf63de4c8601eff2),
    (b"d", 0xaf63d94c8601e773),
    (b"e", 0xaf63d84c8601e5c0),
    (b"f", 0xaf63db4c8601ead9),
    (b"fo", 0x08985907b541d342),
    (b"foo", 0xdcb27518fed9d577),
    (b"foob", 0xdd120e790c2512af),
    (b"fooba", 0xcac165afa2fef40a),
    (b"foobar", 0x85944171f73967e8),
    (b"\0", 0xaf63bd4c8601b7df),
    (b"a\0", 0x089be207b544f1e4),
    (b"foobar\0", 0x34531ca7168b8f38),
    (b"ch", 0x08a25607b54a22ae),
    (b"chongo", 0xe150688c8217b8fd),
    (b"chongo was here!", 0x858e2fa32a55e61d),
    (b"chongo was here!\n", 0x46810940eff5f915),
    (b"curds and whey", 0x23e520e2751bb46e),
    (b"curds and whey\n", 0x1a0b44ccfe1385ec),
    (b"hi", 0x08ba5f07b55ec3da),
    (b"hello", 0xa430d84680aabd0b),
    (b"line 1\nline 2\nline 3", 0x7829851fac17b143),
];

/// Texts with their two sums, worked out by hand; the last two share a key.
const TALLY: [(&[u8], u64, u64); 4] = [
    (b"", 0, 0),
    (b"ab", 195, 293),
    (b"ccc", 297, 594),
    (b"dad", 297, 594),
];

/// Tries that a text has a key of certain words under a digest.
fn try_words<D: Digest>(
    report: &mut Report<'_, HostRuntime>,
    text: &[u8],
    words: [u64; 4],
    shown: &impl fmt::Display,
) -> io::Result<()> {
    let count = text.len();
    let good = key_of::<D>(text).is_some_and(|key| key.words() == words
        && key.count() as usize == count);
    report.case(good, &format_args!("{shown} of {count} bytes"))
}

/// The longest input has a key, and one byte more has none.
fn try_longest<D: Digest>(report: &mut Report<'_, HostRuntime>, name: &str) -> anyhow::Result<()> {
    let most = D::LONGEST;
    let mut bytes = vec![in report.rt.alloc(); 255u8; most as usize]?;
    let longest = key_of::<D>(bytes.as_slice()).is_some();
    report.case(longest, &format_args!("{name} takes {most} bytes"))?;
    bytes.push(0)?;
    let longer = key_of::<D>(bytes.as_slice()).is_none();
    report.case(longer, &format_args!("{name} takes no more"))?;
    Ok(())
}

/// Tries all of these.
pub fn try_digests(report: &mut Report<'_, HostRuntime>) -> anyhow::Result<()> {
    for (text, hash) in FNV1A {
        let shown = format_args!("fnv1a {hash:016x}");
        try_words::<Fnv1a>(report, text, [hash, 0, 0, 0], &shown)?;
    }
    for (text, sum, weighted) in TALLY {
        let shown = format_args!("tally {sum} {weighted}");
        try_words::<Tally>(report, text, [sum, weighted, 0, 0], &shown)?;
    }
    try_longest::<Fnv1a>(report, "fnv1a")?;
    try_longest::<Tally>(report, "tally")
}
