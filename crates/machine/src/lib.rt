// What a host asks of a bench and what it is answered. specs/ has the machine that says what each call gives.
#![tactic(auto)]

ghost use Rattle.std.specs.Prelude.{◌≡◌};
ghost use Rattle.machine.specs.Answers.{stop_number};

// What a host can ask of a bench that is powered.
#[derive(Clone, Copy, PartialEq, Eq, Debug)]
pub enum Call {
    // A bus access of the host's; the lanes are a mask of the four bytes.
    Read { addr: u32 },
    Write { addr: u32, value: u32, lanes: u8 },
    // A word on an input of the peripherals.
    Pin { input: u32, value: u32 },
    // The levels of the sixteen triggers.
    Trigger { levels: u32 },
    // The interrupt on offer is served.
    Acknowledge { id: u32 },
    // A byte for the serial bridge.
    Byte { byte: u8 },
    Reset,
    // Lets time pass.
    Run { clocks: u32 },
}

// Why a run ended.
#[derive(Clone, Copy, PartialEq, Eq, Debug)]
pub enum Stop {
    Whole = 0,
    TraceFull = 1,
    LastCycle = 2,
}

// What an accepted call gives back.
#[derive(Clone, Copy, PartialEq, Eq, Debug)]
pub enum Answer {
    Done,
    Word(u32),
    // The serial bridge's reply, if it gave one.
    Reply(Option<u8>),
    // The clocks that passed, and why no more did.
    Ran(u32, Stop),
}

impl Stop {
    pub fn number(self) -> u8
        ensures { result ≡ stop_number self }
    {
        self as u8
    }
}
