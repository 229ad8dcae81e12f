// What the program does: one action after the other.
use registers::Alias;

// The registers of GPIO port 0, the GPIO's interrupt status, the panel's lamps, and any other address.
#[derive(Clone, Copy)]
pub enum Register {
    Port,
    Latch,
    Dir,
    Cnr,
    Cnf,
    CnState,
    IntStatus,
    Lamps,
    At(u32),
}

#[derive(Clone, Copy)]
pub enum Action {
    // a heading
    For(Purpose),
    // a whole word to one of a register's addresses
    Write(Register, Alias, u32),
    Read(Register),
    // a word on an input
    Feed(u32, u32),
    Advance(u32),
    Reset,
}

// What the actions that follow are for.
#[derive(Clone, Copy)]
pub enum Purpose {
    Configure,
    CloseA,
    CloseB,
    OpenA,
    SenseEdge,
    ClearStatus,
    MeetRefusals,
    Reset,
    LampTest,
}

// Two output pins of port 0 drive a relay each, and a third senses a switch.
const RELAY_A: u32 = 0x001;

const RELAY_B: u32 = 0x002;

const SENSE: u32 = 0x100;

pub const JOB: [Action; 49] = [
    Action::For(Purpose::Configure),
    Action::Write(Register::Dir, Alias::Set, RELAY_A | RELAY_B),
    Action::Write(Register::Cnr, Alias::Set, SENSE),
    Action::Write(Register::Cnf, Alias::Set, SENSE),
    Action::Read(Register::Dir),
    Action::For(Purpose::CloseA),
    Action::Write(Register::Latch, Alias::Set, RELAY_A),
    Action::Write(Register::Lamps, Alias::Set, RELAY_A),
    Action::Read(Register::Port),
    Action::Read(Register::Lamps),
    Action::Advance(250),
    Action::For(Purpose::CloseB),
    Action::Write(Register::Latch, Alias::Set, RELAY_B),
    Action::Write(Register::Lamps, Alias::Set, RELAY_B),
    Action::Read(Register::Port),
    Action::Read(Register::Lamps),
    Action::Advance(25_000_000),
    Action::For(Purpose::OpenA),
    Action::Write(Register::Latch, Alias::Clear, RELAY_A),
    Action::Write(Register::Lamps, Alias::Clear, RELAY_A),
    Action::Read(Register::Port),
    Action::Read(Register::Lamps),
    Action::For(Purpose::SenseEdge),
    Action::Feed(0, SENSE),
    Action::Read(Register::CnState),
    Action::Advance(1),
    Action::Read(Register::CnState),
    Action::Read(Register::IntStatus),
    Action::Advance(4_294_967_295),
    Action::For(Purpose::ClearStatus),
    Action::Write(Register::CnState, Alias::Clear, SENSE),
    Action::Read(Register::CnState),
    Action::Read(Register::IntStatus),
    Action::Write(Register::IntStatus, Alias::Main, 0),
    Action::Read(Register::IntStatus),
    Action::For(Purpose::MeetRefusals),
    Action::Read(Register::At(0x1B00_7FFC)),
    Action::Read(Register::At(0x1B00_1200)),
    Action::Write(Register::At(0x1000_0000), Alias::Main, 1),
    Action::Write(Register::At(0x1B00_8010), Alias::Main, 1),
    Action::Read(Register::Port),
    Action::Read(Register::Lamps),
    Action::For(Purpose::Reset),
    Action::Reset,
    Action::Advance(1),
    Action::Read(Register::Port),
    Action::Read(Register::Lamps),
    Action::For(Purpose::LampTest),
    Action::Write(Register::Lamps, Alias::Invert, RELAY_A | RELAY_B),
];
