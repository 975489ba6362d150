// Run: steps until enough are accepted, or one is not, or one is Debug. The state is tested once: a step keeps it valid.
// A single step is a run of one.
ghost use Rattle.std.specs.Prelude.{◌≡◌, ◌≤◌};
ghost use Rattle.base.specs.Told.{told};
ghost use Rattle.memory.specs.Bytes.{lent};
ghost use Rattle.journal.specs.States.{whole};
ghost use Rattle.journal.specs.Step.{result_of, step};
ghost use Rattle.journal.specs.Run.{goes_on, counts, ran, run};

use crate::states::valid;
use crate::steps::turn;
use crate::{Ran, State};
use base::Refusal;
use machine::StepAnswer;

#[tactic(auto, unfolding(crate::specs::Run::goes_on))]
fn goes_on(a: Result<StepAnswer, Refusal>) -> bool
    ensures { result ≡ goes_on (told a) }
{
    matches!(a, Ok(StepAnswer::Continue))
}

// What a step adds to a run's count.
#[tactic(auto, unfolding(crate::specs::Run::counts, crate::specs::Step::is_accepted))]
fn counts(a: Result<StepAnswer, Refusal>) -> u32
    ensures k_value { result ≡ counts (told a) }
    ensures k_bound { result ≤ 1 }
{
    match a {
        Ok(StepAnswer::Continue | StepAnswer::Debug) => 1,
        Ok(StepAnswer::Stop) | Err(_) => 0,
    }
}

// At most n steps: 1 first, then the last step's answer, Continue for n = 0; and how many were accepted.
pub fn run(s: &mut State, mem: &mut [u8], dev: &mut [u8], journal: &mut [u8], n: u32) -> Ran
    ensures { ran (told result.answer) result.count (whole s.new (lent mem.new dev.new) journal.new) ≡ run n (whole s.old (lent mem.old dev.old) journal.old) }
{
    if !valid(*s, dev, journal) {
        return Ran {
            answer: Err(Refusal::BadState),
            count: 0,
        };
    }
    let map = s.machine.map;
    let d = records::room(journal);
    for count in 0..n {
        let answer = turn(s, map, mem, dev, journal, d);
        if !goes_on(answer) {
            return Ran {
                answer,
                count: count + counts(answer),
            };
        }
    }
    Ran {
        answer: Ok(StepAnswer::Continue),
        count: n,
    }
}

// One step, recorded: 1, then as the machine's own. Anything but an accepted step changes nothing. It is a run of one.
pub fn step(
    s: &mut State,
    mem: &mut [u8],
    dev: &mut [u8],
    journal: &mut [u8],
) -> Result<StepAnswer, Refusal>
    ensures { result_of (told result) (whole s.new (lent mem.new dev.new) journal.new) ≡ step (whole s.old (lent mem.old dev.old) journal.old) }
{
    run(s, mem, dev, journal, 1).answer
}
