// One timer.
ghost use Rattle.std.specs.Prelude.{◌≡◌, ◌^◌, ◌<◌, ◌≤◌};
ghost use Rattle.registers.specs.Aliases.{alias_number};
ghost use Rattle.peripheral.specs.Model.{steps};
ghost use Rattle.timers.specs.Timer as spec;

use crate::map::TimerRegister;
use registers::Write;

// The one named bit of CONTROL.
const RUN: u32 = 1;

// The registers of a timer.
#[derive(Clone, Copy, Default)]
pub struct Timer {
    control: u32,
    count: u32,
    period: u32,
}

impl Timer {
    pub(crate) fn count(self) -> u32
        ensures { result ≡ self.count }
    {
        self.count
    }

    pub(crate) fn is_running(self) -> bool
        ensures { result ≡ spec.running self }
    {
        self.control % 2 == 1
    }

    // The clocks from one tick to the next. A PERIOD of 0 means 2^32.
    #[tactic(auto, unfolding(crate::specs::Timer::limit))]
    fn limit(self) -> u64
        ensures value { result ≡ spec.limit self }
        ensures low { 0 < result }
        ensures top { result ≤ 2 ^ 32 }
    {
        if self.period == 0 {
            0x1_0000_0000
        } else {
            u64::from(self.period)
        }
    }

    // The count that clocks go on from: one at PERIOD or above ticks at the next clock, as the last one below it does.
    #[tactic(auto, unfolding(crate::specs::Timer::base))]
    fn base(self) -> u64
        ensures value { result ≡ spec.base self }
        ensures below { result < spec.limit self }
        ensures top { result < 2 ^ 32 }
    {
        u64::from(self.count).min(self.limit() - 1)
    }

    // How often it ticks in n clocks.
    #[tactic(auto, using(crate::proofs::Counting::ticks_running, crate::proofs::Counting::ticks_stopped))]
    fn ticks(self, n: u32) -> u64
        ensures { result ≡ spec.ticks_in n self }
    {
        if self.is_running() {
            (self.base() + u64::from(n)) / self.limit()
        } else {
            0
        }
    }

    #[tactic(auto, unfolding(crate::specs::Timer::ticks_within))]
    pub(crate) fn ticks_within(self, n: u32) -> bool
        ensures { result ≡ spec.ticks_within n self }
    {
        self.ticks(n) > 0
    }

    #[tactic(auto, using(crate::proofs::Counting::steps_stopped, crate::proofs::Counting::steps_some), unfolding(peripheral::specs::Model::steps))]
    pub(crate) fn after(self, n: u32) -> Timer
        ensures { result ≡ steps spec.clocked n self }
    {
        if n == 0 || !self.is_running() {
            return self;
        }
        let count = (self.base() + u64::from(n)) % self.limit();
        Timer {
            count: count as u32,
            ..self
        }
    }

    // How many clocks pass before the one at which it ticks.
    #[tactic(auto, unfolding(crate::specs::Timer::calm))]
    pub(crate) fn calm(self) -> u32
        ensures { result ≡ spec.calm self }
    {
        if self.is_running() {
            (self.limit() - 1 - self.base()) as u32
        } else {
            u32::MAX
        }
    }

    pub(crate) fn word(self, register: TimerRegister) -> u32
        ensures { result ≡ spec.word self register }
    {
        match register {
            TimerRegister::Control => self.control,
            TimerRegister::Count => self.count,
            TimerRegister::Period => self.period,
        }
    }

    // A write to PERIOD, by any address and any lane, begins a new period. COUNT is read-only.
    pub(crate) fn put(&mut self, register: TimerRegister, write: Write)
        ensures { self.new ≡ spec.written self.old register (alias_number write.alias) write.value write.lanes.mask }
    {
        match register {
            TimerRegister::Control => self.control = write.apply_to(self.control, RUN),
            TimerRegister::Count => {}
            TimerRegister::Period => {
                self.period = write.apply(self.period);
                if write.lanes.mask() != 0 {
                    self.count = 0;
                }
            }
        }
    }
}
