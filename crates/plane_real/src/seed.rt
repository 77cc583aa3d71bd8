use std::io::Read;
use std::rt::Files;
use std::{fs, io};

/// 32 bytes of the random source of the system.
///
/// # Errors
///
/// Where the system does not open the source, or does not give the bytes.
pub fn random_seed<R: Files>(rt: &R) -> io::Result<[u8; 32]> {
    let mut source = fs::open(rt, "/dev/urandom")?;
    let mut seed = [0u8; 32];
    source.read_exact(&mut seed)?;
    Ok(seed)
}
