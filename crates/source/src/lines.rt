// The lines of a source text, each with its byte 10.
ghost use Rattle.std.specs.Prelude.{◌≡◌, [], ◌∷◌, ◌++◌, map, ◌≤◌, length};
ghost use Rattle.pen.specs.Written.{Writes};
ghost use Rattle.text.specs.Lines.{ended};
ghost use Rattle.source.specs.Words.{instruction_of};
ghost use Rattle.source.specs.Source.{is_noop, plain_line, label_name, reference_name, refer_line, line_by, line_of, lines_of};
ghost use Rattle.source.specs.Marks.{used_in, label_before};

use crate::aims::{Aim, aim_of, inside};
use crate::marks::is_marked;
use crate::words::instruction_of;
use base::{ByteAddress, InstructionIndex};
use instruction::{Edition, Instruction};
use parser::Reference;
use pen::Pen;

// ---- one line, without its end

fn is_noop(i: Instruction) -> bool
    ensures { result ≡ is_noop i }
{
    matches!(i, Instruction::Noop)
}

#[tactic(auto, using(pen::proofs::PenLaws::joined), unfolding(crate::specs::Source::plain_line))]
fn put_plain(p: &mut Pen, i: Instruction)
    ensures { Writes p.old p.new (plain_line i) }
{
    if is_noop(i) {
        p.put_all(b"DBG")
    } else {
        p.put_text(Edition::Second, i)
    }
}

#[tactic(auto, using(pen::proofs::PenLaws::joined), unfolding(crate::specs::Source::label_name))]
fn put_name(p: &mut Pen, a: u32)
    ensures { Writes p.old p.new (label_name a) }
{
    p.put(b'L');
    p.hex(a);
}

#[tactic(auto, using(pen::proofs::PenLaws::joined))]
fn put_reference_name(p: &mut Pen, r: Reference)
    ensures { Writes p.old p.new (reference_name r) }
{
    match r {
        Reference::Jmp => p.put_all(b"JMP"),
        Reference::CondJmp => p.put_all(b"CJP"),
        Reference::Call => p.put_all(b"CALL"),
    }
}

#[tactic(auto, using(pen::proofs::PenLaws::joined), unfolding(crate::specs::Source::refer_line))]
fn put_reference(p: &mut Pen, r: Reference, a: u16)
    ensures { Writes p.old p.new (refer_line r a) }
{
    put_reference_name(p, r);
    p.put(b' ');
    put_name(p, a as u32);
}

// By where it aims, in a program of n words.
fn put_line_by(p: &mut Pen, n: usize, i: Instruction, aim: Option<Aim>)
    ensures { Writes p.old p.new (line_by n i aim) }
{
    match aim {
        Some(x) if inside(n, x.address) => put_reference(p, x.reference, x.address),
        _ => put_plain(p, i),
    }
}

// ---- with its end

#[tactic(auto, using(pen::proofs::PenLaws::joined))]
fn put_line(p: &mut Pen, n: usize, i: Instruction)
    ensures { Writes p.old p.new (line_of n i ++ 10 ∷ []) }
{
    put_line_by(p, n, i, aim_of(i));
    p.put(b'\n');
}

// Where the word is marked.
fn put_label(p: &mut Pen, used: &[bool], k: InstructionIndex)
    ensures { Writes p.old p.new (label_before (used_in used.now) k.0) }
{
    if !is_marked(used, k.0 as usize) {
        return;
    }
    let address = ByteAddress::from(k);
    put_name(p, address.0);
    p.put_all(b":\n");
}

// A line for each word, after a label line where the word is marked.
pub fn put_lines(p: &mut Pen, words: &[u16], used: &[bool])
    requires { length words.now ≤ 32767 }
    ensures { Writes p.old p.new (ended (lines_of (used_in used.now) (length words.now) 0 (map instruction_of words.now))) }
{
    for (k, w) in words.iter().enumerate() {
        put_label(p, used, InstructionIndex(k as u16));
        put_line(p, words.len(), instruction_of(*w));
    }
}
