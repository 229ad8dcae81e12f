// The board: its clock, the control block with the interrupt controller, the trigger levels and the serial bridge.
#![tactic(auto)]

mod control;
mod map;
mod state;

pub use map::Register;
pub use state::Board;
