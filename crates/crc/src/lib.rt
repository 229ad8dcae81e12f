// CRC-32C, the cyclic redundancy check with Castagnoli's polynomial.
#![tactic(auto)]

ghost use Rattle.std.specs.Prelude.{◌≡◌};
ghost use Rattle.crc.specs.Crc.{crc_of};

mod digest;
mod table;

pub use digest::Crc32c;

// The CRC-32C of the bytes.
pub fn crc32c(bytes: &[u8]) -> u32
    ensures { result ≡ crc_of bytes.now }
{
    let mut crc = Crc32c::new();
    for byte in bytes {
        crc.update(*byte);
    }
    crc.value()
}
