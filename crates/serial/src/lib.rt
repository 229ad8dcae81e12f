// The serial bridge, which writes words into memory as they arrive over a serial line.
//
// An upload is an address, a count, so many words, and the CRC-32C of the words' bytes. Each is a field of four bytes,
// the lowest first. The words go to consecutive addresses from the first, whose two lowest bits are cleared. The last
// byte of an upload is answered, whether its CRC is right or not.
#![tactic(auto)]

mod bridge;
mod field;

pub use bridge::{Bridge, Payload, Step};
pub use field::{Field, Place};
