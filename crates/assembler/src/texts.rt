// A whole text, and what is left in what was lent.
ghost use Rattle.std.specs.Prelude.{◌≡◌, length};
ghost use Rattle.asm.specs.Assemble.{outcome, words_of, labels_left, filled, report, reported};
ghost use Rattle.asm.specs.Views.{word_count, label_count};
ghost use Rattle.table.specs.Table as Table;

use crate::lines::assemble_lines;
use asm::{Fault, Rules, Totals, clear_words};
use labels::{Label, Open};
use table::clear;

// How many words and labels an answer leaves.
fn words_left(a: Result<Totals, Fault>) -> usize
    ensures { result ≡ word_count a }
{
    a.map_or(0, |t| t.words)
}

fn labels_kept(a: Result<Totals, Fault>) -> usize
    ensures { result ≡ label_count a }
{
    a.map_or(0, |t| t.labels)
}

// A refusal leaves all zero; what is accepted is followed by zeros.
pub fn assemble(
    rules: Rules,
    text: &[u8],
    words: &mut [u16],
    table: &mut [Label],
) -> Result<Totals, Fault>
    ensures result_value { reported result ≡ report (outcome rules.strict text.now (length words.old) (length table.old)) }
    ensures words_after { words.new ≡ filled (length words.old) (words_of (outcome rules.strict text.now (length words.old) (length table.old))) }
    ensures table_after { table.new ≡ Table.filled (length table.old) (labels_left (outcome rules.strict text.now (length words.old) (length table.old))) }
{
    let mut opens = [Open::none(); 512];
    let a = assemble_lines(rules, text, &mut *words, &mut *table, &mut opens);
    clear_words(words, words_left(a));
    clear(table, labels_kept(a));
    a
}

// With 1,024 label entries of its own, for a caller that wants the words alone.
pub fn assemble_words(rules: Rules, text: &[u8], words: &mut [u16]) -> Result<Totals, Fault>
    ensures result_value { reported result ≡ report (outcome rules.strict text.now (length words.old) 1024) }
    ensures words_after { words.new ≡ filled (length words.old) (words_of (outcome rules.strict text.now (length words.old) 1024)) }
{
    let mut table = [Label {
        place: 0,
        length: 0,
        address: 0,
    }; 1024];
    assemble(rules, text, words, &mut table)
}
