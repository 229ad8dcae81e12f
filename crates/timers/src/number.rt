// Numbers of timers and modules.
ghost use Rattle.std.specs.Prelude.{◌≤◌};

// A number from 0 to the last one.
#[derive(Clone, Copy)]
pub struct Number<const LAST: usize> {
    pub index: usize,
    ghost within: { index ≤ LAST },
}
