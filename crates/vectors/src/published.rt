// Published vectors of CRC-32C: those of iSCSI (RFC 3720, B.4), and the check value that catalogues of CRCs give.
ghost use Rattle.std.specs.Prelude.{◌≡◌};
ghost use Rattle.vectors.specs.Published as spec;

use crc::crc32c;
use std::fmt;

#[derive(Clone, Copy)]
pub enum Vector {
    Zeros,
    Ones,
    Rising,
    Falling,
    ReadCommand,
    Digits,
}

pub const VECTORS: [Vector; 6] = [
    Vector::Zeros,
    Vector::Ones,
    Vector::Rising,
    Vector::Falling,
    Vector::ReadCommand,
    Vector::Digits,
];

const RISING: [u8; 32] = *b"\x00\x01\x02\x03\x04\x05\x06\x07\x08\x09\x0A\x0B\x0C\x0D\x0E\x0F\
    \x10\x11\x12\x13\x14\x15\x16\x17\x18\x19\x1A\x1B\x1C\x1D\x1E\x1F";

const FALLING: [u8; 32] = *b"\x1F\x1E\x1D\x1C\x1B\x1A\x19\x18\x17\x16\x15\x14\x13\x12\x11\x10\
    \x0F\x0E\x0D\x0C\x0B\x0A\x09\x08\x07\x06\x05\x04\x03\x02\x01\x00";

// A SCSI read command as iSCSI sends it.
const READ_COMMAND: [u8; 48] = *b"\x01\xC0\x00\x00\x00\x00\x00\x00\x00\x00\x00\x00\x00\x00\x00\x00\
    \x14\x00\x00\x00\x00\x00\x04\x00\x00\x00\x00\x14\x00\x00\x00\x18\
    \x28\x00\x00\x00\x00\x00\x00\x00\x02\x00\x00\x00\x00\x00\x00\x00";

impl fmt::Display for Vector {
    fn fmt<W: fmt::Write>(&self, f: &mut fmt::Formatter<W>) -> fmt::Result {
        f.write_str(match self {
            Vector::Zeros => "32 bytes 0x00",
            Vector::Ones => "32 bytes 0xFF",
            Vector::Rising => "0 to 31, rising",
            Vector::Falling => "31 to 0, falling",
            Vector::ReadCommand => "an iSCSI read command",
            Vector::Digits => "the digits 1 to 9",
        })
    }
}

impl Vector {
    fn bytes(self) -> &'static [u8]
        ensures { result.now ≡ spec.bytes self }
    {
        match self {
            Vector::Zeros => &[0; 32],
            Vector::Ones => &[0xFF; 32],
            Vector::Rising => &RISING,
            Vector::Falling => &FALLING,
            Vector::ReadCommand => &READ_COMMAND,
            Vector::Digits => b"123456789",
        }
    }

    pub(crate) fn expected(self) -> u32
        ensures { result ≡ spec.published self }
    {
        match self {
            Vector::Zeros => 0x8A91_36AA,
            Vector::Ones => 0x62A8_AB43,
            Vector::Rising => 0x46DD_794E,
            Vector::Falling => 0x113F_DB5C,
            Vector::ReadCommand => 0xD996_3A56,
            Vector::Digits => 0xE306_9283,
        }
    }

    // Proved to be the published value.
    #[tactic(auto, using(crate::proofs::Values::value))]
    pub(crate) fn computed(self) -> u32
        ensures { result ≡ spec.published self }
    {
        crc32c(self.bytes())
    }
}
