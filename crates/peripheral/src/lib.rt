// What every peripheral stands behind, and two peripherals as one.
#![tactic(auto)]

mod block;
mod bus;
mod interface;
mod pairs;

pub use block::{RegisterBlock, RegisterMap};
pub use bus::{fill, located};
pub use faults::{Fault, Layer, Refusal};
pub use interface::Peripheral;
pub use pairs::{Pair, regroup};
