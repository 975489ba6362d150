// Loading a program.
ghost use Rattle.std.specs.Prelude.{◌≡◌};
ghost use Rattle.base.specs.Numbers.{answer_number};
ghost use Rattle.memory.specs.Bytes.{lent};
ghost use Rattle.host.specs.Host.{past, load_number, load_state, load_bytes};

use crate::states::empty_journal;
use base::Refusal;
use journal::State;

// Whether a load of a valid state came as far as storing, by its answer.
#[tactic(auto, unfolding(crate::specs::Host::past))]
fn is_past(answer: Result<(), Refusal>) -> bool
    ensures { result ≡ past (answer_number answer) }
{
    !matches!(answer, Err(Refusal::TooLong | Refusal::TableFull))
}

// Loads a program: 1, 16, 14, 15, 13. 15 and 13 keep what was stored and the emptied journal.
pub fn write_program(
    s: &mut State,
    mem: &mut [u8],
    dev: &mut [u8],
    journal: &[u8],
    words: &[u16],
) -> Result<(), Refusal>
    ensures answer_value { answer_number result ≡ load_number s.old (lent mem.old dev.old) journal.now words.now }
    ensures state_value { s.new ≡ load_state s.old (lent mem.old dev.old) journal.now words.now }
    ensures dev_after { lent mem.new dev.new ≡ load_bytes s.old (lent mem.old dev.old) journal.now words.now }
{
    if !journal::valid(*s, dev, journal) {
        return Err(Refusal::BadState);
    }
    let answer = memory::write_program(&mut s.machine.map, mem, dev, words);
    if is_past(answer) {
        empty_journal(s);
    }
    answer
}
