// Where the registers stand.
ghost use Rattle.std.specs.Prelude.{◌≡◌};
ghost use Rattle.timers.specs.Map.{owns, register_at, numbered};

use crate::number::Number;
use peripheral::RegisterMap;

// The registers that each timer has.
#[derive(Clone, Copy)]
pub enum TimerRegister {
    Control,
    Count,
    Period,
}

// The registers that each pulse-width module has.
#[derive(Clone, Copy)]
pub enum PwmRegister {
    Control,
    Value,
    NextValue,
}

// A register: one of a timer's or a module's, with its number, or the one that all timers share.
#[derive(Clone, Copy)]
pub enum Register {
    OfTimer(Number<15>, TimerRegister),
    OfPwm(Number<5>, PwmRegister),
    IntStatus,
}

// The number that an address gives in bits 11 to 8, if there is such a one.
fn number<const LAST: usize>(word: u32) -> Option<Number<LAST>>
    ensures { result ≡ numbered LAST word }
{
    let index = (word / 256 % 16) as usize;
    if index <= LAST {
        Some(Number { index })
    } else {
        None
    }
}

// The unit has 8 KiB of addresses: timers are in the first half, modules in the second. In both, bits 11 to 8 give the
// number and bits 7 to 4 the register.
impl RegisterMap for Register {
    ghost owned = { owns };

    ghost found = { register_at };

    fn owns(word: u32) -> bool {
        matches!(word, 0x1B00_2000..=0x1B00_3FFF)
    }

    fn at(word: u32) -> Option<Register> {
        // Taken out before the match: worked out in each arm, they make a read through a pair take a third longer.
        let (timer, pwm) = (number(word), number(word));
        match (word, word / 16 % 16) {
            (0..=0x1B00_2FFF, 0) => Some(Register::OfTimer(timer?, TimerRegister::Control)),
            (0..=0x1B00_2FFF, 1) => Some(Register::OfTimer(timer?, TimerRegister::Count)),
            (0..=0x1B00_2FFF, 2) => Some(Register::OfTimer(timer?, TimerRegister::Period)),
            (0..=0x1B00_2FFF, 15) if word / 256 % 16 == 0 => Some(Register::IntStatus),
            (0x1B00_3000.., 0) => Some(Register::OfPwm(pwm?, PwmRegister::Control)),
            (0x1B00_3000.., 1) => Some(Register::OfPwm(pwm?, PwmRegister::Value)),
            (0x1B00_3000.., 2) => Some(Register::OfPwm(pwm?, PwmRegister::NextValue)),
            _ => None,
        }
    }
}
