// What the program prints.
ghost use Rattle.std.specs.Prelude.{◌≡◌, ◌==◌};
ghost use Rattle.vectors.specs.Published.{published};

use crate::published::Vector;
use crate::uploads::Upload;
use serial::Step;
use std::fmt;

fn verdict(passes: bool) -> &'static str {
    if passes { "pass" } else { "FAIL" }
}

// A vector, and what was computed for it.
#[derive(Clone, Copy)]
pub struct Outcome {
    pub vector: Vector,
    pub computed: u32,
}

impl Outcome {
    pub(crate) fn passes(self) -> bool
        ensures { result ≡ (self.computed == published self.vector) }
    {
        self.computed == self.vector.expected()
    }
}

impl fmt::Display for Outcome {
    fn fmt<W: fmt::Write>(&self, f: &mut fmt::Formatter<W>) -> fmt::Result {
        let vector = self.vector;
        let expected = self.vector.expected();
        let computed = self.computed;
        let verdict = verdict(self.passes());
        write!(
            f,
            "{vector}: expected 0x{expected:08X}, computed 0x{computed:08X}: {verdict}"
        )
    }
}

// What followed from a byte of an upload.
#[derive(Clone, Copy)]
pub struct Line {
    pub place: usize,
    pub step: Step,
}

impl fmt::Display for Line {
    fn fmt<W: fmt::Write>(&self, f: &mut fmt::Formatter<W>) -> fmt::Result {
        let place = self.place;
        match self.step {
            Step::Write { address, word } => {
                write!(f, "  byte {place}: write 0x{word:08X} to 0x{address:08X}")
            }
            Step::Reply(reply) => write!(f, "  byte {place}: reply 0x{reply:02X}"),
        }
    }
}

// The last reply to an upload, and whether it stopped the bridge.
#[derive(Clone, Copy)]
pub struct Ending {
    pub upload: Upload,
    pub reply: Option<u8>,
    pub stopped: bool,
}

impl Ending {
    pub(crate) fn passes(self) -> bool {
        self.reply == Some(self.upload.reply)
    }
}

impl fmt::Display for Ending {
    fn fmt<W: fmt::Write>(&self, f: &mut fmt::Formatter<W>) -> fmt::Result {
        let expected = self.upload.reply;
        let state = if self.stopped { "stopped" } else { "ready" };
        let verdict = verdict(self.passes());
        write!(
            f,
            "  expected 0x{expected:02X}: {verdict}; the bridge is {state}"
        )
    }
}
