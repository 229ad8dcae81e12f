// One pulse-width module.
ghost use Rattle.std.specs.Prelude.{◌≡◌};
ghost use Rattle.registers.specs.Aliases.{alias_number};
ghost use Rattle.registers.specs.Bits.{lane_bits};
ghost use Rattle.timers.specs.Pwm as spec;
ghost use Rattle.timers.specs.Timer.{ticks_within};

use crate::map::PwmRegister;
use crate::timer::Timer;
use registers::Write;

// The named bits of CONTROL: ENABLE, bit 8, and TIMER_ID, bits 3 to 0.
const CONTROL: u32 = 0x10F;

// The registers of a module.
#[derive(Clone, Copy, Default)]
pub struct Pwm {
    control: u32,
    value: u32,
    next_value: u32,
}

impl Pwm {
    fn is_enabled(self) -> bool
        ensures { result ≡ spec.enabled self }
    {
        self.control / 256 % 2 == 1
    }

    // The timer that it runs on.
    #[tactic(auto, unfolding(crate::specs::Pwm::timer_of))]
    fn timer(self, timers: &[Timer; 16]) -> Timer
        ensures { result ≡ spec.timer_of timers.now self }
    {
        timers[(self.control % 16) as usize]
    }

    // A tick of its timer copies NEXT_VALUE to VALUE.
    #[tactic(auto, unfolding(crate::specs::Pwm::loaded))]
    pub(crate) fn after(self, timers: &[Timer; 16], n: u32) -> Pwm
        ensures { result ≡ spec.loaded (ticks_within n) timers.now self }
    {
        if self.timer(timers).ticks_within(n) {
            Pwm {
                value: self.next_value,
                ..self
            }
        } else {
            self
        }
    }

    #[tactic(auto, unfolding(crate::specs::Pwm::high))]
    pub(crate) fn is_high(self, timers: &[Timer; 16]) -> bool
        ensures { result ≡ spec.high timers.now self }
    {
        self.is_enabled() && self.timer(timers).count() < self.value
    }

    // How many clocks its output stays, if its timer does not tick.
    #[tactic(auto, unfolding(crate::specs::Pwm::calm, crate::specs::Pwm::high))]
    pub(crate) fn calm(self, timers: &[Timer; 16]) -> u32
        ensures { result ≡ spec.calm timers.now self }
    {
        let timer = self.timer(timers);
        if self.is_high(timers) && timer.is_running() {
            self.value - timer.count() - 1
        } else {
            u32::MAX
        }
    }

    pub(crate) fn word(self, register: PwmRegister) -> u32
        ensures { result ≡ spec.word self register }
    {
        match register {
            PwmRegister::Control => self.control,
            PwmRegister::Value => self.value,
            PwmRegister::NextValue => self.next_value,
        }
    }

    // VALUE is read-only.
    pub(crate) fn put(&mut self, register: PwmRegister, write: Write)
        ensures { self.new ≡ spec.written self.old register (alias_number write.alias) write.value (lane_bits write.lanes.mask) }
    {
        match register {
            PwmRegister::Control => self.control = write.apply_to(self.control, CONTROL),
            PwmRegister::Value => {}
            PwmRegister::NextValue => self.next_value = write.apply(self.next_value),
        }
    }
}
