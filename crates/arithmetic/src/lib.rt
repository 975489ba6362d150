// Numbers of sixteen bits: the arithmetic with its refusals, comparisons, shifts, and the bits of FLAGS.
#![tactic(auto)]

mod compares;
mod flags;
mod operators;
mod roots;
mod shifts;
mod totals;

pub use compares::compare;
pub use flags::{compared, failed, flag};
pub use operators::{arith, arithmetic};
pub use roots::root;
pub use shifts::moved;
pub use totals::{difference, power, product, quotient, remainder, sum};
