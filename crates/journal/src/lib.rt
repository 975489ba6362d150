// The whole state, its journal, and what goes by it: the recording step, run, step-back, forget.
#![tactic(auto)]

mod backs;
mod runs;
mod states;
mod steps;

pub use backs::{forget, step_back};
use base::Refusal;
use machine::{Machine, StepAnswer};
pub use runs::{run, step};
pub use states::{new, valid};

// A machine, and how its journal stands: the slot that the next record goes to, and how many records are held.
#[derive(Clone, Copy)]
pub struct State {
    pub machine: Machine,
    pub next: u16,
    pub held: u16,
}

// Which of a record's two places its kind uses.
#[derive(Clone, Copy)]
pub enum Used {
    Neither,
    First,
    Both,
}

// A run's answer, which is its last step's, and the steps that were accepted.
#[derive(Clone, Copy)]
pub struct Ran {
    pub answer: Result<StepAnswer, Refusal>,
    pub count: u32,
}
