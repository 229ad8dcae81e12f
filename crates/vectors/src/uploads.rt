// Whole uploads, byte by byte.
ghost use Rattle.std.specs.Prelude.{◌≡◌};
ghost use Rattle.serial.specs.Upload.{after, answer, told};
ghost use Rattle.vectors.specs.Memory as spec;

use serial::{Bridge, Step};

// An upload, and the reply that it should get.
#[derive(Clone, Copy)]
pub struct Upload {
    pub title: &'static str,
    pub frame: &'static [u8],
    pub reply: u8,
}

pub const UPLOADS: [Upload; 5] = [
    Upload {
        title: "three words to 0x10000000, by an address that is not aligned",
        frame: b"\x02\x00\x00\x10\x03\x00\x00\x00\
            \xEF\xBE\xAD\xDE\x13\x00\x00\x00\x78\x56\x34\x12\
            \x52\x98\x9C\x9A",
        reply: 0x59,
    },
    Upload {
        title: "the same, with a bit of the second word changed on the way",
        frame: b"\x02\x00\x00\x10\x03\x00\x00\x00\
            \xEF\xBE\xAD\xDE\x13\x01\x00\x00\x78\x56\x34\x12\
            \x52\x98\x9C\x9A",
        reply: 0x23,
    },
    Upload {
        title: "no words",
        frame: b"\x00\x00\x00\x10\x00\x00\x00\x00\
            \x00\x00\x00\x00",
        reply: 0x59,
    },
    Upload {
        title: "three words where memory ends after two",
        frame: b"\xF8\xFF\xFF\xFF\x03\x00\x00\x00\
            \x01\x00\x00\x00\x02\x00\x00\x00\x03\x00\x00\x00\
            \x1A\x12\x4B\xEA",
        reply: 0xE0,
    },
    Upload {
        title: "two words where there is no memory",
        frame: b"\x00\x00\x00\x20\x02\x00\x00\x00\
            \xEF\xBE\xAD\xDE\x13\x00\x00\x00\
            \x10\xF4\x46\xD4",
        reply: 0xE0,
    },
];

// There is memory everywhere but from 0x20000000 to 0x2FFFFFFF.
fn has_memory(address: u32) -> bool
    ensures { result ≡ spec.has_memory address }
{
    address / 0x1000_0000 != 2
}

// Hands a byte to the bridge, and has the word written that it asks for.
pub(crate) fn serve(bridge: &mut Bridge, byte: u8) -> Option<Step>
    ensures after { bridge.new ≡ spec.left (answer bridge.old byte) (after bridge.old byte) }
    ensures answer { told result ≡ spec.served (answer bridge.old byte) }
{
    match bridge.take(byte)? {
        Step::Write { address, .. } if !has_memory(address) => Some(Step::Reply(bridge.refused())),
        step => Some(step),
    }
}
