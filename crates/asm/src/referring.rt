// A line that refers to a label.
ghost use Rattle.std.specs.Prelude.{◌≡◌, List, ℕ, ◌≤◌, IfOk, length, take};
ghost use Rattle.labels.specs.Labels.{find};
ghost use Rattle.labels.specs.Opens.{open_to};
ghost use Rattle.labels.specs.declared.Label.{Label};
ghost use Rattle.asm.specs.Labels.{part};
ghost use Rattle.asm.specs.Work.{Task, task, references};
ghost use Rattle.asm.specs.Work as Work;
ghost use Rattle.asm.specs.Views.{work_of, turned};

use crate::patching::add_open;
use crate::words::{add_instruction, add_word};
use crate::{Counts, Rules};
use base::Refusal;
use labels::{Found, Open};
use parser::{Reference, resolved};

// The label is not known yet: the word is 0 until it is patched.
fn open_reference(
    reference: Reference,
    place: usize,
    size: usize,
    n: Counts,
    words: &mut [u16],
    opens: &mut [Open],
) -> Result<Counts, Refusal>
    requires words_in_bounds { (n.words.0 ≤ length words.old) × (n.words.0 ≤ 32767) × (n.waiting ≤ 512) }
    requires opens_len { length opens.old ≡ 512 }
    ensures opens_after { (t : Task) → (labels : List Label) → t.word_room ≡ length words.old →
        turned result words.new labels opens.new
        ≡ Work.opens t (open_to place size n.words.0 reference) (work_of n words.old labels opens.old) }
    ensures result_in_bounds { IfOk result (λ m. (m.words.0 ≤ length words.old) × (m.words.0 ≤ 32767) × (m.waiting ≤ 512) × (m.labels ≤ n.labels)) }
{
    let next = add_word(words, n.words, 0)?;
    let o = Open::new(place, size, n.words, reference);
    let waiting = add_open(o, n.waiting, opens)?;
    Ok(Counts {
        words: next,
        labels: n.labels,
        waiting,
    })
}

// With what was found of the name.
pub fn refer(
    rules: Rules,
    reference: Reference,
    place: usize,
    size: usize,
    f: Option<Found>,
    n: Counts,
    words: &mut [u16],
    opens: &mut [Open],
) -> Result<Counts, Refusal>
    requires words_in_bounds { (n.words.0 ≤ length words.old) × (n.words.0 ≤ 32767) × (n.waiting ≤ 512) }
    requires opens_len { length opens.old ≡ 512 }
    ensures by_index { (text : List ℕ) → (ls : List Label) → (most : ℕ) → f ≡ find text (part text place size) (take n.labels ls) →
        turned result words.new ls opens.new
        ≡ references (task rules.strict text (length words.old) most) reference place size (work_of n words.old ls opens.old) }
    ensures result_in_bounds { IfOk result (λ m. (m.words.0 ≤ length words.old) × (m.words.0 ≤ 32767) × (m.waiting ≤ 512) × (m.labels ≤ n.labels)) }
{
    match f {
        Some(found) => {
            let i = resolved(reference, found.address);
            let next = add_instruction(rules, words, n.words, i)?;
            Ok(Counts { words: next, ..n })
        }
        None => open_reference(reference, place, size, n, words, opens),
    }
}
