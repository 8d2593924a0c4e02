// The checksum and the CRC of words. What they are is defined in `words`.
#![tactic(auto)]

pub mod checksum; // checksum.rt: the checksum of a lent part
pub mod crc; // crc.rt: the CRC of a lent part, from any register
