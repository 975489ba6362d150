// What a C host calls: each function takes numbers and lent bytes and answers one number (include/seamkettle.h says the same in C).
// A machine's state comes and goes in its block, so nothing is kept between two calls.
#![tactic(auto)]

mod frame;
mod programs;
mod steps;
mod tables;
mod texts;
mod version;

pub use programs::{kettle_load, kettle_read};
pub use steps::{kettle_forget, kettle_run, kettle_step, kettle_step_back};
pub use tables::{kettle_device, kettle_protect, kettle_set_register};
pub use texts::{kettle_assemble, kettle_list, kettle_print, kettle_text};
pub use version::kettle_version;
