// What the board holds.
use serial::Bridge;

// The board. Its registers are CONTROL, INT_EN and INT_FLAGS; bit i of the levels is trigger i.
#[derive(Clone, Copy)]
pub struct Board {
    pub cycle: u64,
    pub control: u32,
    pub enable: u32,
    pub flags: u32,
    pub levels: u16,
    pub bridge: Bridge,
}
