// What a bench writes down: events, and what a host can see change.
#![tactic(auto)]

mod events;
mod view;

pub use events::{Event, Kind};
pub use view::View;
