// Events: what a trace is made of.
ghost use Rattle.std.specs.Prelude.{◌≡◌};
ghost use Rattle.trace.specs.Events.{letter_of, event};

// What an event tells of: a call of the host's, a changed output word, or another interrupt on offer.
#[derive(Clone, Copy, PartialEq, Eq, Debug)]
pub enum Kind {
    Read = b'R' as isize,
    Write = b'W' as isize,
    Pin = b'P' as isize,
    Trigger = b'T' as isize,
    Acknowledge = b'A' as isize,
    Byte = b'U' as isize,
    Reset = b'Z' as isize,
    Output = b'O' as isize,
    Offer = b'Q' as isize,
}

// One line of a trace. A number that its kind does not use is 0.
#[derive(Clone, Copy, PartialEq, Eq, Debug)]
pub struct Event {
    pub cycle: u64,
    pub kind: Kind,
    pub place: u32,
    pub value: u32,
    pub lanes: u8,
    pub answer: u32,
}

impl Kind {
    // The letter by which listings and scripts know it.
    pub fn letter(self) -> u8
        ensures { result ≡ letter_of self }
    {
        self as u8
    }
}

impl Event {
    // An event with neither lanes nor an answer.
    pub fn new(cycle: u64, kind: Kind, place: u32, value: u32) -> Event
        ensures { result ≡ event cycle kind place value 0 0 }
    {
        Event {
            cycle,
            kind,
            place,
            value,
            lanes: 0,
            answer: 0,
        }
    }
}
