// A text: its words, its listing; the text of one word, and of many. No machine is needed.
ghost use Rattle.std.specs.Prelude.{◌≡◌, true, not, ◌/◌, min, eqb, length, take};
ghost use Rattle.wordbytes.specs.Words.{bytes_of, even};
ghost use Rattle.asm.specs.Assemble.{words_of, filled, report, reported};
ghost use Rattle.printer.specs.Print.{word_next, word_buffer};
ghost use Rattle.lister.specs.Listing.{listed, listed_buffer};
ghost use Rattle.source.specs.Source.{byte_answer, byte_buffer};
ghost use Rattle.numbers.specs.Answers.{listed_number, sourced_number, fitting};
ghost use Rattle.seamkettle.specs.Calls.{assembling, assemble_number, assembled_words};

use asm::{Fault, Rules, Totals};
use assembler::assemble_words;
use numbers::{bad_block, of_assembly, of_count, of_text};
use printer::print_word;
use source::text_of_bytes;
use wordbytes::write_words;

// Zeros from byte `from` on.
fn clear_bytes(bytes: &mut [u8], from: usize)
    ensures { bytes.new ≡ filled (length bytes.old) (take from bytes.old) }
{
    if from < bytes.len() {
        bytes[from..].fill(0);
    }
}

// How many words of so many bytes are assembled: no more than a program may have.
fn own_room(bytes: usize) -> usize
    ensures { result ≡ min (bytes / 2) 32767 }
{
    (bytes / 2).min(32767)
}

// Assembles by way of `own`, which has room for as many words as a program may have.
fn assemble_bytes(
    rules: Rules,
    text: &[u8],
    words: &mut [u8],
    own: &mut [u16],
) -> Result<Totals, Fault>
    requires own_len { length own.old ≡ 32767 }
    requires words_value { even words.old ≡ true }
    ensures result_value { reported result ≡ report (assembling rules.strict text.now words.old) }
    ensures result_value_2 { fitting (reported result) ≡ true }
    ensures words_after { words.new ≡ bytes_of (filled (length words.old / 2) (words_of (assembling rules.strict text.now words.old))) }
{
    let n = own_room(words.len());
    let a = assemble_words(rules, text, &mut own[..n]);
    write_words(&own[..n], words);
    clear_bytes(words, 2 * n);
    a
}

// Assembles a text into words, plainly for strict = 0: 31, then a refusal and its line, or how many words, open references and
// labels there are. Words that are not used are zero, all of them on a refusal but 31.
pub fn kettle_assemble(text: &[u8], strict: u8, words: &mut [u8]) -> u64
    ensures value { result ≡ assemble_number (not (eqb strict 0)) text.now words.old }
    ensures words_after { words.new ≡ assembled_words (not (eqb strict 0)) text.now words.old }
{
    if words.len() % 2 != 0 {
        return bad_block();
    }
    let mut own = [0u16; 32767];
    let rules = Rules {
        strict: strict != 0,
    };
    let a = assemble_bytes(rules, text, words, &mut own);
    of_assembly(a)
}

// The listing of a text: 19, or how long it is.
pub fn kettle_list(text: &[u8], out: &mut [u8]) -> u64
    ensures value { result ≡ listed_number (listed text.now (length out.old)) }
    ensures out_after { out.new ≡ listed_buffer text.now out.old }
{
    of_count(lister::list(text, out))
}

// What a word says, as the listing has it: 4 to 6, 19, or how long it is.
pub fn kettle_print(word: u16, out: &mut [u8]) -> u64
    ensures value { result ≡ listed_number (word_next word (length out.old)) }
    ensures out_after { out.new ≡ word_buffer word out.old }
{
    of_count(print_word(word, out))
}

// Assembly text for words, which assembles plainly to the very same words: 31, 16, 33 with the index of the lowest word that no line
// gives, 19, or how long it is.
pub fn kettle_text(words: &[u8], out: &mut [u8]) -> u64
    ensures value { result ≡ sourced_number (byte_answer words.now (length out.old)) }
    ensures out_after { out.new ≡ byte_buffer words.now out.old }
{
    of_text(text_of_bytes(words, out))
}
