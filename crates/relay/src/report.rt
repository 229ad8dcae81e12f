// An action and its outcome as a line of text.
use crate::job::{Action, Purpose, Register};
use crate::rig::Outcome;
use peripheral::Fault;
use registers::Alias;
use std::fmt;

#[derive(Clone, Copy)]
pub struct Line {
    pub cycle: u64,
    pub action: Action,
    pub outcome: Result<Outcome, Fault>,
}

impl fmt::Display for Purpose {
    fn fmt<W: fmt::Write>(&self, f: &mut fmt::Formatter<W>) -> fmt::Result {
        f.write_str(match self {
            Purpose::Configure => "pins 0 and 1 drive relays A and B, pin 8 senses a switch",
            Purpose::CloseA => "close relay A and light its lamp",
            Purpose::CloseB => "close relay B and light its lamp",
            Purpose::OpenA => "open relay A and put out its lamp",
            Purpose::SenseEdge =>
                "the switch pulls pin 8 up: the next clock notices, and no later one",
            Purpose::ClearStatus => "clear the pin's bit, and then the port's",
            Purpose::MeetRefusals =>
                "addresses that nothing claims, and addresses with no register",
            Purpose::LampTest => "invert two lamps",
            Purpose::Reset => "a reset opens the relays and keeps the input, which is no edge",
        })
    }
}

impl fmt::Display for Register {
    fn fmt<W: fmt::Write>(&self, f: &mut fmt::Formatter<W>) -> fmt::Result {
        match *self {
            Register::Port => f.write_str("PORT"),
            Register::Latch => f.write_str("LATCH"),
            Register::Dir => f.write_str("DIR"),
            Register::Cnr => f.write_str("CNR"),
            Register::Cnf => f.write_str("CNF"),
            Register::CnState => f.write_str("CN_STATE"),
            Register::IntStatus => f.write_str("INT_STATUS"),
            Register::Lamps => f.write_str("LAMPS"),
            Register::At(addr) => write!(f, "address 0x{addr:08X}"),
        }
    }
}

impl fmt::Display for Action {
    fn fmt<W: fmt::Write>(&self, f: &mut fmt::Formatter<W>) -> fmt::Result {
        match *self {
            Action::For(purpose) => write!(f, "{purpose}"),
            Action::Write(register, alias, value) => {
                write!(f, "write 0x{value:08X} to {register}")?;
                match alias {
                    Alias::Main => Ok(()),
                    Alias::Set => f.write_str(" SET"),
                    Alias::Clear => f.write_str(" CLEAR"),
                    Alias::Invert => f.write_str(" INVERT"),
                }
            }
            Action::Read(register) => write!(f, "read {register}"),
            Action::Feed(input, value) => write!(f, "input {input} goes to 0x{value:08X}"),
            Action::Advance(clocks) => write!(f, "advance by {clocks}"),
            Action::Reset => f.write_str("reset"),
        }
    }
}

impl fmt::Display for Outcome {
    fn fmt<W: fmt::Write>(&self, f: &mut fmt::Formatter<W>) -> fmt::Result {
        match *self {
            Outcome::Done => Ok(()),
            Outcome::Word(word) => write!(f, ": 0x{word:08X}"),
            Outcome::Raised { quiet, mask: 0 } => {
                write!(f, ": nothing raised, quiet number was {quiet}")
            }
            Outcome::Raised { quiet, mask } => {
                let first = mask.trailing_zeros() + 8;
                write!(f, ": raised interrupt {first}, quiet number was {quiet}")
            }
        }
    }
}

impl fmt::Display for Line {
    fn fmt<W: fmt::Write>(&self, f: &mut fmt::Formatter<W>) -> fmt::Result {
        let Line {
            cycle,
            action,
            outcome,
        } = *self;
        if let Action::For(_) = action {
            return write!(f, "{action}");
        }
        write!(f, "  cycle {cycle}: {action}")?;
        match outcome {
            Ok(outcome) => write!(f, "{outcome}"),
            Err(fault) => write!(f, ": refused, {fault}"),
        }
    }
}
