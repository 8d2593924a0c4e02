// Steps are text that a human can read: each number has four decimal digits, and one character stands behind it.
use std::io;
use std::io::{ErrorKind, Read};

// Reads as many bytes as there are places: whether the text had so many.
fn is_filled(input: &mut impl Read, bytes: &mut [u8]) -> io::Result<bool> {
    match input.read_exact(bytes) {
        Ok(()) => Ok(true),
        Err(e) if e.kind() == ErrorKind::UnexpectedEof => Ok(false),
        Err(e) => Err(e),
    }
}

// The next number; 0 where the text has ended.
fn number(input: &mut impl Read) -> io::Result<u16> {
    let mut digits = [0u8; 4];
    if !is_filled(input, &mut digits)? {
        return Ok(0);
    }
    is_filled(input, &mut [0u8; 1])?;
    Ok(octets::number_of(&digits))
}

// As many numbers as there are places.
pub(crate) fn read(input: &mut impl Read, out: &mut [u16]) -> io::Result<()> {
    for n in out {
        *n = number(input)?;
    }
    Ok(())
}
