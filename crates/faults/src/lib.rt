// Why a call was refused.
#![tactic(auto)]

ghost use Rattle.std.specs.Prelude.{◌≡◌};
ghost use Rattle.faults.specs.Faults.{refusal_number, layer_number};

use std::error::Error;
use std::fmt;

// What was wrong. A refusal is known by its number.
#[derive(Clone, Copy, PartialEq, Eq, Debug)]
pub enum Refusal {
    TraceFull = 1,
    Unclaimed = 2,
    NoRegister = 3,
    NoInput = 4,
    LevelsTooHigh = 5,
    IdTooHigh = 6,
    NotOnOffer = 7,
    BadLanes = 8,
    BridgeStopped = 9,
    MalformedLine = 10,
    UnknownVerb = 11,
    BadField = 12,
    ListingFull = 13,
}

// Which layer refused. A register may be a peripheral's or the control block's.
#[derive(Clone, Copy, PartialEq, Eq, Debug)]
pub enum Layer {
    Register = 1,
    Bus = 2,
    Bench = 3,
    Script = 4,
    Printer = 5,
}

// A refusal, with the layer that it came from and the place: the address as given, the input, the ID, the mask,
// the events or bytes used, or the column of a script.
#[derive(Clone, Copy, PartialEq, Eq, Debug)]
pub struct Fault {
    pub refusal: Refusal,
    pub layer: Layer,
    pub place: u64,
}

impl Refusal {
    pub fn number(self) -> u8
        ensures { result ≡ refusal_number self }
    {
        self as u8
    }
}

impl Layer {
    pub fn number(self) -> u8
        ensures { result ≡ layer_number self }
    {
        self as u8
    }
}

impl fmt::Display for Refusal {
    fn fmt<W: fmt::Write>(&self, f: &mut fmt::Formatter<W>) -> fmt::Result {
        f.write_str(match self {
            Refusal::TraceFull => "the trace has no room after event",
            Refusal::Unclaimed => "no peripheral claims address",
            Refusal::NoRegister => "no register stands at address",
            Refusal::NoInput => "there is no input",
            Refusal::LevelsTooHigh => "trigger levels do not fit 16 bits:",
            Refusal::IdTooHigh => "interrupt ID is above 31:",
            Refusal::NotOnOffer => "interrupt is not on offer:",
            Refusal::BadLanes => "lane mask is above 15:",
            Refusal::BridgeStopped => "the serial bridge is stopped until a reset:",
            Refusal::MalformedLine => "script line is not of the fixed length, at column",
            Refusal::UnknownVerb => "script line has an unknown verb, at column",
            Refusal::BadField => "script line has a bad field, at column",
            Refusal::ListingFull => "the listing has no room after byte",
        })
    }
}

impl fmt::Display for Layer {
    fn fmt<W: fmt::Write>(&self, f: &mut fmt::Formatter<W>) -> fmt::Result {
        f.write_str(match self {
            Layer::Register => "register",
            Layer::Bus => "bus",
            Layer::Bench => "bench",
            Layer::Script => "script",
            Layer::Printer => "printer",
        })
    }
}

// As in: no register stands at address 0x1B001200 (refusal 3, register).
impl fmt::Display for Fault {
    fn fmt<W: fmt::Write>(&self, f: &mut fmt::Formatter<W>) -> fmt::Result {
        let Fault {
            refusal,
            layer,
            place,
        } = *self;
        let number = refusal.number();
        match refusal {
            Refusal::Unclaimed | Refusal::NoRegister => {
                write!(f, "{refusal} 0x{place:08X} (refusal {number}, {layer})")
            }
            _ => write!(f, "{refusal} {place} (refusal {number}, {layer})"),
        }
    }
}

impl Error for Fault {}
