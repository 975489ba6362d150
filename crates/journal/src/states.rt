// The whole state: whether it is valid, and a new one.
ghost use Rattle.std.specs.Prelude.{◌≡◌};
ghost use Rattle.journal.specs.States.{valid, fresh};

use crate::State;

// The tables are valid, no more is held than the journal has room for, and next is one of its slots.
#[tactic(auto, unfolding(crate::specs::States::valid, crate::specs::States::next_in))]
pub fn valid(s: State, dev: &[u8], journal: &[u8]) -> bool
    ensures { result ≡ valid s dev.now journal.now }
{
    let d = records::room(journal);
    machine::valid(s.machine, dev) && s.held <= d && (s.next < d || s.next == 0 && d == 0)
}

// A new state: the machine is new, nothing is held.
pub fn new(debug: bool) -> State
    ensures { result ≡ fresh debug }
{
    State {
        machine: machine::new(debug),
        next: 0,
        held: 0,
    }
}
