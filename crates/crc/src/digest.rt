// The CRC-32C of bytes that come one at a time.
ghost use Rattle.std.specs.Prelude.{◌≡◌};
ghost use Rattle.crc.specs.Crc.{no_bytes, updated, crc_value};

use crate::table::eight_steps;

// The register of the CRC, after the bytes so far.
#[derive(Clone, Copy, PartialEq, Eq, Debug)]
pub struct Crc32c {
    register: u32,
}

impl Crc32c {
    // Before any byte.
    pub fn new() -> Crc32c
        ensures { result ≡ no_bytes }
    {
        Crc32c {
            register: 0xFFFF_FFFF,
        }
    }

    // Takes one byte more.
    #[tactic(auto, using(crate::proofs::Linear::by_byte), unfolding(crate::specs::Crc::byte_step))]
    pub fn update(&mut self, byte: u8)
        ensures { self.new ≡ updated self.old byte }
    {
        let mixed = self.register ^ u32::from(byte);
        self.register = eight_steps((mixed % 256) as u8) ^ mixed / 256;
    }

    // The CRC-32C of the bytes so far.
    pub fn value(self) -> u32
        ensures { result ≡ crc_value self }
    {
        self.register ^ 0xFFFF_FFFF
    }
}
