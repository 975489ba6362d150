// What a line does to the words, labels and open references so far.
ghost use Rattle.std.specs.Prelude.{◌≡◌, List, ◌+◌, ◌≤◌, IfOk, length, take};
ghost use Rattle.base.specs.Told.{is};
ghost use Rattle.labels.specs.declared.Label.{Label};
ghost use Rattle.labels.specs.Labels.{find};
ghost use Rattle.asm.specs.Labels.{part};
ghost use Rattle.asm.specs.Reading.{item_of, told_item, end_of, end_read};
ghost use Rattle.asm.specs.Work.{task, turn};
ghost use Rattle.asm.specs.Views.{work_of, turned, name_at, entry_of, written, Within, name_read, entry_read};

use crate::labelling::label_line;
use crate::referring::refer;
use crate::words::add_instruction;
use crate::{Counts, Line, Rules};
use base::Refusal;
use labels::{Found, Open};

fn part(text: &[u8], place: usize, size: usize) -> &[u8]
    requires { place + size ≤ length text.now }
    ensures { result.now ≡ part text.now place size }
{
    let past = place + size;
    &text[place..past]
}

// The name that the line at `at` defines or refers to; empty where it does neither, or could not be read.
pub fn name_in(text: &[u8], at: usize, line: Result<Line, Refusal>) -> &[u8]
    requires { at + end_read line ≤ length text.now }
    ensures { result.now ≡ name_read text.now at line }
{
    match line {
        Ok(Line::Label(start, size)) => part(text, at + start, size),
        Ok(Line::Refers(_, start, size)) => part(text, at + start, size),
        Ok(Line::Skip) => part(text, 0, 0),
        Ok(Line::Says(_)) => part(text, 0, 0),
        Err(_) => part(text, 0, 0),
    }
}

// A line that was read.
fn do_item(
    rules: Rules,
    text: &[u8],
    at: usize,
    line: Line,
    f: Option<Found>,
    most: usize,
    n: Counts,
    words: &mut [u16],
    opens: &mut [Open],
) -> Result<Counts, Refusal>
    requires line_in_bounds { at + end_of line ≤ length text.now }
    requires within { Within n (length words.old) most }
    requires opens_len { length opens.old ≡ 512 }
    ensures opens_after { (ls : List Label) → length ls ≡ most → f ≡ find text.now (name_at text.now at line) (take n.labels ls) →
        turned result words.new (written (entry_of line at f n) ls) opens.new
        ≡ turn (task rules.strict text.now (length words.old) most) at (is (item_of line)) (work_of n words.old ls opens.old) }
    ensures within_2 { IfOk result (λ m. Within m (length words.old) most) }
{
    match line {
        Line::Skip => Ok(n),
        Line::Label(start, size) => {
            label_line(rules, text, at + start, size, f, most, n, words, opens)
        }
        Line::Says(i) => {
            let next = add_instruction(rules, words, n.words, i)?;
            Ok(Counts { words: next, ..n })
        }
        Line::Refers(reference, start, size) => {
            refer(rules, reference, at + start, size, f, n, words, opens)
        }
    }
}

// The line that starts at `at`, as it was read, with what was found of its name among the labels of a table of `most` entries. What it
// writes into that table is `entry_for`'s to say.
pub fn do_line(
    rules: Rules,
    text: &[u8],
    at: usize,
    line: Result<Line, Refusal>,
    f: Option<Found>,
    most: usize,
    n: Counts,
    words: &mut [u16],
    opens: &mut [Open],
) -> Result<Counts, Refusal>
    requires line_in_bounds { at + end_read line ≤ length text.now }
    requires within { Within n (length words.old) most }
    requires opens_len { length opens.old ≡ 512 }
    ensures opens_after { (ls : List Label) → length ls ≡ most → f ≡ find text.now (name_read text.now at line) (take n.labels ls) →
        turned result words.new (written (entry_read line at f n) ls) opens.new
        ≡ turn (task rules.strict text.now (length words.old) most) at (told_item line) (work_of n words.old ls opens.old) }
    ensures within_2 { IfOk result (λ m. Within m (length words.old) most) }
{
    match line {
        Ok(item) => do_item(rules, text, at, item, f, most, n, words, opens),
        Err(r) => Err(r),
    }
}
