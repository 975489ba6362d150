// Open references: a new one, and those that a label's line patches.
ghost use Rattle.std.specs.Prelude.{◌≡◌, ◌≤◌, ◌<◌, IfOk, length, take};
ghost use Rattle.asm.specs.Labels.{add_open, patch};
ghost use Rattle.asm.specs.Views.{told_first, stepped, patch_one, patched};

use crate::Rules;
use crate::encoding::word_of;
use crate::words::put_word;
use base::{ByteAddress, Refusal};
use labels::{Open, names};
use parser::resolved;

// One more, `count` being open. How many there are then.
pub fn add_open(o: Open, count: usize, opens: &mut [Open]) -> Result<usize, Refusal>
    requires in_bounds { 512 ≤ length opens.old }
    requires count_bound { count ≤ 512 }
    ensures opens_after { told_first result opens.new ≡ add_open o (take count opens.old) }
    ensures result_bound { IfOk result (λ n. n ≤ 512) }
{
    if count < 512 {
        opens[count] = o;
        Ok(count + 1)
    } else {
        Err(Refusal::TooManyFixups)
    }
}

// Open reference i, of which `kept` before it stay open: where it waits for the name it gets the address, which an instruction has
// in sixteen bits, and its word is put; else it stays open too.
fn patch_one(
    rules: Rules,
    text: &[u8],
    name: &[u8],
    address: ByteAddress,
    i: usize,
    kept: usize,
    words: &mut [u16],
    opens: &mut [Open],
) -> Result<usize, Refusal>
    requires kept_le_i { (kept ≤ i) × (i < 512) × (address.0 ≤ 65535) }
    requires i_in_bounds { i < length opens.old }
    ensures { stepped result words.new opens.new
        ≡ patch_one rules.strict text.now name.now address.0 i kept words.old opens.old }
{
    let o = opens[i];
    if names(text, o.place, o.length, name) {
        let w = word_of(rules, resolved(o.reference, address.0 as u16))?;
        put_word(words, o.word, w);
        return Ok(kept);
    }
    opens[kept] = o;
    Ok(kept + 1)
}

// Gives every open reference to the name its address; the others stay open, in their order. How many these are.
pub fn patch(
    rules: Rules,
    text: &[u8],
    name: &[u8],
    address: ByteAddress,
    count: usize,
    words: &mut [u16],
    opens: &mut [Open],
) -> Result<usize, Refusal>
    requires count_bound { (count ≤ 512) × (address.0 ≤ 65535) }
    requires count_in_bounds { count ≤ length opens.old }
    ensures opens_after { patched result words.new opens.new
        ≡ patch rules.strict text.now name.now address.0 (take count opens.old) words.old }
    ensures result_bound { IfOk result (λ n. n ≤ count) }
{
    let mut kept = 0;
    for i in 0..count {
        kept = patch_one(
            rules,
            text,
            name,
            address,
            i,
            kept,
            &mut *words,
            &mut *opens,
        )?;
    }
    Ok(kept)
}
