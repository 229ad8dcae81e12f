// The timer unit: sixteen timers, and six pulse-width modules that run on them.
#![tactic(auto)]

ghost use Rattle.std.specs.Prelude.{◌≡◌, length};

use pwm::Pwm;
use timer::Timer;

mod map;
mod number;
mod pwm;
mod timer;
mod unit;

// The timers, the modules, and INT_STATUS, in which bit i tells that timer i ticked.
#[derive(Clone, Copy)]
pub(crate) struct Bank {
    timers: [Timer; 16],
    modules: [Pwm; 6],
    status: u32,
}

// The timer unit.
#[derive(Drop)]
pub struct Timers {
    bank: Bank,
    // The lengths that the types give: a ghost member such as `sized` has them from here alone.
    ghost sixteen: { length bank.timers ≡ 16 },
    ghost six: { length bank.modules ≡ 6 },
}
