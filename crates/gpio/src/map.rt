// Where the registers stand.
ghost use Rattle.gpio.specs.Map.{owns, register_at};

use peripheral::RegisterMap;

// The registers that each port has.
#[derive(Clone, Copy)]
pub enum PortRegister {
    Pins,
    Latch,
    Dir,
    Cnr,
    Cnf,
    CnState,
}

// A register: one of a port's, with the port's number as the address gives it, or the one that both share.
#[derive(Clone, Copy)]
pub enum Register {
    OfPort(u32, PortRegister),
    IntStatus,
}

// The GPIO has 4 KiB of addresses. In them bits 11 to 8 give the port, bits 7 to 4 the register.
impl RegisterMap for Register {
    ghost owned = { owns };

    ghost found = { register_at };

    fn owns(word: u32) -> bool {
        matches!(word, 0x1B00_1000..=0x1B00_1FFF)
    }

    fn at(word: u32) -> Option<Register> {
        match (word / 256 % 16, word / 16 % 16) {
            (port, 0) if port < 2 => Some(Register::OfPort(port, PortRegister::Pins)),
            (port, 1) if port < 2 => Some(Register::OfPort(port, PortRegister::Latch)),
            (port, 2) if port < 2 => Some(Register::OfPort(port, PortRegister::Dir)),
            (port, 3) if port < 2 => Some(Register::OfPort(port, PortRegister::Cnr)),
            (port, 4) if port < 2 => Some(Register::OfPort(port, PortRegister::Cnf)),
            (port, 5) if port < 2 => Some(Register::OfPort(port, PortRegister::CnState)),
            (0, 15) => Some(Register::IntStatus),
            _ => None,
        }
    }
}
