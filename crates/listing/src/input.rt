// A line's bytes from standard input. The input's end is told from a read that failed; a read that was interrupted, or that found
// nothing ready, is made again.
use std::io;
use std::io::{ErrorKind, Read};

// Reads until the line is whole, the input ends or a read fails: how many bytes were read. No call that waits until something is ready can be had here,
// and none that lets another process run first, so the next read is made at once. Nothing says how often a read has to be made again, so the turns are
// counted, up to a number that no run uses up.
pub(crate) fn read_line(from: &mut impl Read, bytes: &mut [u8]) -> io::Result<usize> {
    let mut done = 0;
    for _ in 0..u64::MAX {
        if done == bytes.len() {
            break;
        }
        match from.read(&mut bytes[done..]) {
            Ok(0) => break,
            Ok(n) => done += n,
            Err(e) if matches!(e.kind(), ErrorKind::Interrupted | ErrorKind::WouldBlock) => {}
            Err(e) => return Err(e),
        }
    }
    Ok(done)
}
