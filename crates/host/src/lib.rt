// What the host does to a whole state between its steps: set a register, protect, register a device, load, read out.
// Each asks first whether the state is valid as a whole, and calls the crate below it.
#![tactic(auto)]

mod entries;
mod loads;
mod reads;
mod states;

pub use entries::{protect, register_device, set_register};
pub use loads::write_program;
pub use reads::read_out;
