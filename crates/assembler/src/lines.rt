// The lines of a text in turn.
ghost use Rattle.std.specs.Prelude.{◌≡◌, ◌+◌, ◌≤◌, IfOk, length};
ghost use Rattle.asm.specs.Reading.{read};
ghost use Rattle.asm.specs.Work.{task, turn};
ghost use Rattle.asm.specs.Assemble.{outcome};
ghost use Rattle.asm.specs.Views.{work_of, turned, written, Within, EndedWith, word_count, label_count};

use asm::{Counts, Entry, Fault, Rules, Totals, do_line, entry_for, name_in, read_line};
use base::{InstructionIndex, Refusal};
use labels::{Label, Open};
use reader::{LineReader, foreign_line};
use table::{define, find};

// The entry goes into the table, where there is one.
fn write(table: &mut [Label], entry: Option<Entry>)
    ensures { table.new ≡ written entry table.old }
{
    if let Some(e) = entry {
        define(table, e.slot, e.label);
    }
}

// One line, which starts at `at`: its name is looked up, its entry goes into the table, and the rest of its work is done.
fn one_line(
    rules: Rules,
    text: &[u8],
    at: usize,
    line: &[u8],
    n: Counts,
    words: &mut [u16],
    table: &mut [Label],
    opens: &mut [Open],
) -> Result<Counts, Refusal>
    requires line_in_bounds { at + length line.now ≤ length text.now }
    requires within { Within n (length words.old) (length table.old) }
    requires opens_len { length opens.old ≡ 512 }
    ensures opens_after { turned result words.new table.new opens.new
        ≡ turn (task rules.strict text.now (length words.old) (length table.old)) at (read line.now) (work_of n words.old table.old opens.old) }
    ensures within_2 { IfOk result (λ m. Within m (length words.old) (length table.old)) }
{
    let item = read_line(line);
    let most = table.len();
    let f = find(text, table, n.labels, name_in(text, at, item));
    write(table, entry_for(item, at, f, n));
    do_line(rules, text, at, item, f, most, n, words, opens)
}

// 26 over the whole text first, then line by line. What words and table hold past the counts is cleared by the caller.
pub fn assemble_lines(
    rules: Rules,
    text: &[u8],
    words: &mut [u16],
    table: &mut [Label],
    opens: &mut [Open],
) -> Result<Totals, Fault>
    requires { length opens.old ≡ 512 }
    ensures ended_with { EndedWith result words.new table.new (outcome rules.strict text.now (length words.old) (length table.old)) }
    ensures result_in_bounds { (word_count result ≤ length words.old) × (label_count result ≤ length table.old) }
{
    let foreign = foreign_line(text);
    if foreign != 0 {
        return Err(Fault {
            refusal: Refusal::NotAscii,
            line: foreign,
        });
    }
    let mut number = 0;
    let mut n = Counts {
        words: InstructionIndex(0),
        labels: 0,
        waiting: 0,
    };
    for (at, line) in LineReader::new(text) {
        number += 1;
        let done = one_line(
            rules,
            text,
            at,
            line,
            n,
            &mut *words,
            &mut *table,
            &mut *opens,
        );
        match done {
            Ok(m) => n = m,
            Err(refusal) => {
                return Err(Fault {
                    refusal,
                    line: number,
                });
            }
        }
    }
    Ok(Totals {
        words: n.words.0 as usize,
        labels: n.labels,
        waiting: n.waiting,
    })
}
