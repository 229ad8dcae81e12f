// The bridge takes an upload one byte at a time. It asks for the words to be written, and answers.
ghost use Rattle.std.specs.Prelude.{◌≡◌};
ghost use Rattle.serial.specs.Frames.{TakesFrames, StopsAtEnd};
ghost use Rattle.serial.specs.Upload as upload;

use crate::field::Field;
use crc::Crc32c;

// The words were written, and their CRC is right.
const ACCEPTED: u8 = 0x59;

// The words were written, and their CRC is wrong.
const DAMAGED: u8 = 0x23;

// A word could not be written.
const REFUSED: u8 = 0xE0;

// What follows from the last byte of a word or of an upload.
#[derive(Clone, Copy, PartialEq, Eq, Debug)]
pub enum Step {
    Write { address: u32, word: u32 },
    Reply(u8),
}

// What is known of a word that is arriving: where it goes, how many words follow it, and the CRC up to here. Past the
// last word of memory there is no address.
#[derive(Clone, Copy, PartialEq, Eq, Debug)]
pub struct Payload {
    address: Option<u32>,
    following: u32,
    crc: Crc32c,
}

// The field that is arriving, with what is known from the fields before it.
#[derive(Clone, Copy, PartialEq, Eq, Debug)]
pub enum Bridge {
    Address(Field),
    Count { address: u32, field: Field },
    Word { payload: Payload, field: Field },
    Check { crc: Crc32c, field: Field },
    // A word could not be written: nothing more is taken until the bridge is made anew.
    Stopped,
}

// What the last byte of an upload is answered.
fn verdict(crc: Crc32c, check: u32) -> Step
    ensures { upload.told_step result ≡ upload.verdict crc check }
{
    if check == crc.value() {
        Step::Reply(ACCEPTED)
    } else {
        Step::Reply(DAMAGED)
    }
}

impl Payload {
    // What the last byte of the word is answered.
    fn ask(self, word: u32) -> Step
        ensures { upload.told_step result ≡ upload.asked self.address word }
    {
        match self.address {
            Some(address) => Step::Write { address, word },
            None => Step::Reply(REFUSED),
        }
    }

    // The bridge after the word.
    fn written(self) -> Bridge
        ensures { result ≡ upload.written self.address self.following self.crc }
    {
        match self.address {
            Some(address) => Bridge::expecting(address.checked_add(4), self.following, self.crc),
            None => Bridge::Stopped,
        }
    }
}

impl Bridge {
    // A bridge at the start of an upload.
    #[tactic(auto, using(crate::proofs::Uploads::takes_frames, crate::proofs::Uploads::stops_at_end))]
    pub fn new() -> Bridge
        ensures state { result ≡ upload.fresh }
        ensures frames { TakesFrames result }
        ensures ends { StopsAtEnd result }
    {
        Bridge::Address(Field::new())
    }

    // After the address.
    fn counting(address: u32) -> Bridge
        ensures { result ≡ upload.counting address }
    {
        Bridge::Count {
            address: address - address % 4,
            field: Field::new(),
        }
    }

    // Before this many words, the first of them at the address.
    fn expecting(address: Option<u32>, words: u32, crc: Crc32c) -> Bridge
        ensures { result ≡ upload.expecting address words crc }
    {
        let field = Field::new();
        match words {
            0 => Bridge::Check { crc, field },
            _ => Bridge::Word {
                payload: Payload {
                    address,
                    following: words - 1,
                    crc,
                },
                field,
            },
        }
    }

    // Takes the next byte, and says what follows from it, if anything does.
    #[tactic(auto, unfolding(crate::specs::Upload::after, crate::specs::Upload::answer))]
    pub fn take(&mut self, byte: u8) -> Option<Step>
        ensures after { self.new ≡ upload.after self.old byte }
        ensures answer { upload.told result ≡ upload.answer self.old byte }
    {
        match (&mut *self, byte) {
            (Bridge::Address(field), byte) => {
                *self = Bridge::counting(field.take(byte)?);
                None
            }
            (Bridge::Count { address, field }, byte) => {
                *self = Bridge::expecting(Some(*address), field.take(byte)?, Crc32c::new());
                None
            }
            (Bridge::Word { payload, field }, byte) => {
                payload.crc.update(byte);
                let step = payload.ask(field.take(byte)?);
                *self = payload.written();
                Some(step)
            }
            (Bridge::Check { crc, field }, byte) => {
                let step = verdict(*crc, field.take(byte)?);
                *self = Bridge::new();
                Some(step)
            }
            (Bridge::Stopped, _) => None,
        }
    }

    // The word that was asked for last was not written. The answer to its last byte.
    pub fn refused(&mut self) -> u8
        ensures after { self.new ≡ Bridge.Stopped }
        ensures answer { result ≡ 0xE0 }
    {
        *self = Bridge::Stopped;
        REFUSED
    }

    pub fn is_stopped(&self) -> bool
        ensures { result ≡ upload.is_stopped self.now }
    {
        matches!(self, Bridge::Stopped)
    }
}
