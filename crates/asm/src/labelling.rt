// A label's line: its entry in the table, over the one that has its name or as a new one, and the references that waited for it,
// which are patched.
ghost use Rattle.std.specs.Prelude.{◌≡◌, List, ◌+◌, ◌≤◌, IfOk, length, take, set};
ghost use Rattle.base.specs.Told.{told};
ghost use Rattle.base.specs.Words.{doubled};
ghost use Rattle.labels.specs.declared.Label.{Label};
ghost use Rattle.labels.specs.Labels.{label, find};
ghost use Rattle.asm.specs.Labels.{part};
ghost use Rattle.asm.specs.Reading.{end_read};
ghost use Rattle.asm.specs.Work.{task, labelled};
ghost use Rattle.asm.specs.Views.{slot_of, used_of, entry_read, work_of, turned, Within};

use crate::patching::patch;
use crate::{Counts, Entry, Line, Rules};
use base::{ByteAddress, InstructionIndex, Refusal};
use labels::{Found, Label, Open};

// Where a definition goes, the first `count` entries being used: over the entry that was found, else after the last.
fn slot(found: Option<Found>, count: usize) -> usize
    ensures { result ≡ slot_of found count }
{
    match found {
        Some(f) => f.index,
        None => count,
    }
}

// How many entries are used after it.
fn used(found: Option<Found>, count: usize, most: usize) -> Result<usize, Refusal>
    ensures { told result ≡ used_of found count most }
{
    if found.is_some() {
        return Ok(count);
    }
    if count < most {
        Ok(count + 1)
    } else {
        Err(Refusal::TooManyLabels)
    }
}

// The label that a name gets, with the address of the word that comes next.
fn label_here(place: usize, size: usize, here: InstructionIndex) -> Label
    requires { here.0 ≤ 32767 }
    ensures { result ≡ label place size (doubled here.0) }
{
    Label {
        place,
        length: size,
        address: ByteAddress::from(here).0 as u16,
    }
}

// What the line at `at` writes into a table, where f was found of its name: nothing, unless it is a label's.
pub fn entry_for(
    line: Result<Line, Refusal>,
    at: usize,
    f: Option<Found>,
    n: Counts,
) -> Option<Entry>
    requires { (at + end_read line ≤ 18446744073709551615) × (n.words.0 ≤ 32767) }
    ensures { result ≡ entry_read line at f n }
{
    match line {
        Ok(Line::Label(start, size)) => Some(Entry {
            slot: slot(f, n.labels),
            label: label_here(at + start, size, n.words),
        }),
        Ok(Line::Skip) => None,
        Ok(Line::Says(_)) => None,
        Ok(Line::Refers(_, _, _)) => None,
        Err(_) => None,
    }
}

// Where the name is in the table decides what becomes of the label; the table itself is written by the caller.
pub fn label_line(
    rules: Rules,
    text: &[u8],
    place: usize,
    size: usize,
    f: Option<Found>,
    most: usize,
    n: Counts,
    words: &mut [u16],
    opens: &mut [Open],
) -> Result<Counts, Refusal>
    requires size_in_bounds { place + size ≤ length text.now }
    requires within { Within n (length words.old) most }
    requires opens_len { length opens.old ≡ 512 }
    ensures opens_after { (ls : List Label) → length ls ≡ most → f ≡ find text.now (part text.now place size) (take n.labels ls) →
        turned result words.new (set ls (slot_of f n.labels) (label place size (doubled n.words.0))) opens.new
        ≡ labelled (task rules.strict text.now (length words.old) most) place size (work_of n words.old ls opens.old) }
    ensures within_2 { IfOk result (λ m. Within m (length words.old) most) }
{
    let labels = used(f, n.labels, most)?;
    let past = place + size;
    let here = ByteAddress::from(n.words);
    let name = &text[place..past];
    let waiting = patch(rules, text, name, here, n.waiting, words, opens)?;
    Ok(Counts {
        words: n.words,
        labels,
        waiting,
    })
}
