// The state after an entry that is accepted.
ghost use Rattle.std.specs.Prelude.{◌≡◌};
ghost use Rattle.journal.specs.States.{state};

use journal::State;

// Empties the journal: its bytes stay.
pub fn empty_journal(s: &mut State)
    ensures { s.new ≡ state s.old.machine 0 0 }
{
    s.next = 0;
    s.held = 0;
}
