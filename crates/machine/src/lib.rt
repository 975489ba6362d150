// The machine: registers and mode by value beside the map, lent memory and device bytes.
// A step is planned first, which only reads, and committed afterwards: so a refusal has changed nothing.
#![tactic(auto)]

mod actions;
mod flow;
mod operands;
mod plans;
mod states;
mod steps;
mod transfers;
mod words;

use base::Refusal;
use instruction::Register;
use map::Map;
use memory::Changes;
pub use states::{new, set_register, valid};
pub use steps::{commit, move_of, plan_of, plan_step, step, store};

// A, B, C, M, SP, PC, BP, FLAGS.
#[derive(Clone, Copy)]
pub struct Registers {
    pub value: [u16; 8],
}

// What kind of machine it is.
#[derive(Clone, Copy)]
pub struct Mode {
    pub debug: bool,
}

#[derive(Clone, Copy)]
pub struct Machine {
    pub registers: Registers,
    pub mode: Mode,
    pub map: Map,
}

// What a step answers that is not refused. Continue and Debug are accepted steps.
#[derive(Clone, Copy)]
pub enum StepAnswer {
    Continue,
    Debug,
    Stop,
}

// A step that is decided and not yet made: its answer, the registers after it, the bytes to be stored. For a refusal too: `commit` puts
// them into whatever machine it is lent, which may be another than the one planned for.
#[derive(Clone, Copy)]
pub struct Plan {
    pub answer: Result<StepAnswer, Refusal>,
    pub registers: Registers,
    pub changes: Changes,
}

// What is not refused, with what changes of the registers: one gets a value, and then PC its own. The register stands apart from the
// answer: side by side, they are handed on as one number, which each step packs and unpacks.
#[derive(Clone, Copy)]
pub struct Move {
    pub answer: StepAnswer,
    pub value: u16,
    pub pc: u16,
    pub register: Register,
    pub changes: Changes,
}
