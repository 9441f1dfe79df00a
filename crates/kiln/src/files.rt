//! Reading files.

use crate::fault::{Fault, FileFault};
use std::fs::File;
use std::io;
use std::io::Read;

fn first_bytes(rt: &HostRuntime, name: &str, most: u64) -> io::Result<Vec<u8>> {
    let mut bytes = Vec::new(rt.alloc());
    let mut file = File::open(rt, name)?.take(most);
    file.read_to_end(&mut bytes)?;
    Ok(bytes)
}

/// At most so many bytes of a file, from its start.
pub fn read_up_to<'a>(rt: &HostRuntime, name: &'a str, most: u64) -> Result<Vec<u8>, Fault<'a>> {
    first_bytes(rt, name, most).map_err(|error| Fault::File {
        name,
        reason: FileFault::Unread(error),
    })
}
