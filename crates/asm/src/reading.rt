// What a line of a text is.
ghost use Rattle.std.specs.Prelude.{◌≡◌, ◌+◌, ◌≤◌, ◌<◌, IfOk, length};
ghost use Rattle.asm.specs.Reading.{told_item, end_of, read_trimmed, read};

use crate::Line;
use base::Refusal;
use parser::{Parsed, parse};
use text::{drop_final, past_blanks, second_start, token, trim_end};

// A trimmed line with something on it, which starts at `at`.
fn read_some(t: &[u8], at: usize) -> Result<Line, Refusal>
    requires { (0 < length t.now) × (at + length t.now ≤ 18446744073709551615) }
    ensures result_value { told_item result ≡ read_trimmed at t.now }
    ensures result_bound { IfOk result (λ l. end_of l ≤ at + length t.now) }
{
    if t[0] == b';' {
        return Ok(Line::Skip);
    }
    let name = drop_final(t, b':');
    if name.len() < t.len() {
        return Ok(Line::Label(at, name.len()));
    }
    match parse(t)? {
        Parsed::Is(i) => Ok(Line::Says(i)),
        Parsed::Refers(r) => Ok(Line::Refers(r, at + second_start(t), token(t, 1).len())),
    }
}

pub fn read_line(line: &[u8]) -> Result<Line, Refusal>
    ensures result_value { told_item result ≡ read line.now }
    ensures result_in_bounds { IfOk result (λ l. end_of l ≤ length line.now) }
{
    let a = past_blanks(line, 0);
    let t = trim_end(&line[a..]);
    if t.is_empty() {
        return Ok(Line::Skip);
    }
    read_some(t, a)
}
