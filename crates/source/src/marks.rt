// Which addresses jumps and calls use: a mark for each word, so that none is searched for. An address has eleven bits, so there are
// marks for the first 1,024 words.
ghost use Rattle.std.specs.Prelude.{◌≡◌, map};
ghost use Rattle.source.specs.Words.{instruction_of};
ghost use Rattle.source.specs.Marks.{marked_by, marked, is_marked};

use crate::aims::{Aim, aim_of};
use crate::words::instruction_of;

fn mark(used: &mut [bool], aim: Option<Aim>)
    ensures { used.new ≡ marked_by aim used.old }
{
    if let Some(x) = aim {
        let k = (x.address / 2) as usize;
        if x.address % 2 == 0 && k < used.len() {
            used[k] = true;
        }
    }
}

pub fn mark_all(words: &[u16], used: &mut [bool])
    ensures { used.new ≡ marked (map instruction_of words.now) used.old }
{
    for w in words {
        mark(used, aim_of(instruction_of(*w)));
    }
}

pub fn is_marked(used: &[bool], k: usize) -> bool
    ensures { result ≡ is_marked used.now k }
{
    used.get(k).copied().unwrap_or(false)
}
