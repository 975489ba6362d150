// A pen: bytes, numbers and instructions as text, written into a lent buffer from its first byte on. A buffer with no room is counted
// through, so that a caller learns how long its text is before it writes any of it.
#![tactic(auto)]

mod numbers;
mod printing;
mod writing;

pub use writing::Pen;
