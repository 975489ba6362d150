// What the libraries answer, as text.
use base::Refusal;
use journal::Ran;
use machine::StepAnswer;
use std::fmt::Display;
use std::io::Write;
use std::{fmt, io};

// What was accepted, or `no` and the refusal's number.
#[derive(Clone, Copy)]
pub struct Answer<T>(pub Result<T, Refusal>);

impl<T: Display> Display for Answer<T> {
    fn fmt<W: fmt::Write>(&self, f: &mut fmt::Formatter<W>) -> fmt::Result {
        match &self.0 {
            Ok(said) => said.fmt(f),
            Err(refusal) => write!(f, "no {}", u8::from(*refusal)),
        }
    }
}

// What a change of the machine answers.
pub fn changed(answer: Result<(), Refusal>) -> Answer<&'static str> {
    Answer(answer.map(|_| "ok"))
}

// What a step answers.
pub fn stepped(answer: Result<StepAnswer, Refusal>) -> Answer<&'static str> {
    Answer(answer.map(|step| match step {
        StepAnswer::Continue => "continue",
        StepAnswer::Debug => "debug",
        StepAnswer::Stop => "stop",
    }))
}

// A run's last step, and how many were accepted.
#[derive(Clone, Copy)]
pub struct Walk(pub Ran);

impl Display for Walk {
    fn fmt<W: fmt::Write>(&self, f: &mut fmt::Formatter<W>) -> fmt::Result {
        write!(f, "{} {}", stepped(self.0.answer), self.0.count)
    }
}

// A number, or `none`.
#[derive(Clone, Copy)]
pub struct Maybe(pub Option<u16>);

impl Display for Maybe {
    fn fmt<W: fmt::Write>(&self, f: &mut fmt::Formatter<W>) -> fmt::Result {
        match self.0 {
            Some(n) => write!(f, "{n}"),
            None => write!(f, "none"),
        }
    }
}

// `no` and the refusal's number.
pub fn write_refusal<W: Write>(refusal: Refusal, out: &mut W) -> io::Result<()> {
    write!(out, "no {}", u8::from(refusal))
}

// Whether a store was taken.
pub fn stored(is_stored: bool) -> &'static str {
    if is_stored { "ok" } else { "failed" }
}

// What stands before item i of a list.
pub fn mark_before(i: usize, mark: &'static str) -> &'static str {
    if i == 0 { "" } else { mark }
}

// How many bytes are spelt out at a time, in a buffer that is cheap to clear.
const PIECE: usize = 256;

// Bytes in pairs of lower-case hex digits; `-` where there are none.
pub fn write_hex<W: Write>(bytes: &[u8], out: &mut W) -> io::Result<()> {
    if bytes.is_empty() {
        return out.write_all(b"-");
    }
    let mut digits = [0; 2 * PIECE];
    for piece in bytes.chunks(PIECE) {
        let digits = &mut digits[..2 * piece.len()];
        let Ok(()) = hex::encode_to_slice(piece, digits) else {
            unreachable!()
        };
        out.write_all(digits)?;
    }
    Ok(())
}

// An answer, and the whole buffer behind it.
pub fn write_filled<T: Display + Drop, W: Write>(
    answer: T,
    buffer: &[u8],
    out: &mut W,
) -> io::Result<()> {
    write!(out, "{answer} ")?;
    write_hex(buffer, out)
}
