// The tokens of a line. Each is handed back as the part of the line that it occupies.
ghost use Rattle.std.specs.Prelude.{◌≡◌, ◌+◌, ◌≤◌, ◌<◌, length, drop};
ghost use Rattle.text.specs.Tokens.{tokens, first, token_at, past_first, ends_word, second_start};

use crate::blanks::{is_blank, past_blanks, past_word};

// The first token from `at` on: empty where there is none.
fn token_from(line: &[u8], at: usize) -> &[u8]
    requires { at ≤ length line.now }
    ensures { result.now ≡ first (tokens (drop at line.now)) }
{
    let a = past_blanks(line, at);
    let e = past_word(line, a);
    &line[a..e]
}

// Where the search for the next token starts.
fn past_token(line: &[u8], at: usize) -> usize
    requires { at ≤ length line.now }
    ensures { (result ≡ at + past_first (drop at line.now)) × (result ≤ length line.now) }
{
    let a = past_blanks(line, at);
    past_word(line, a)
}

// Token k of the line, from 0; empty where there are fewer.
pub fn token(line: &[u8], k: usize) -> &[u8]
    ensures { result.now ≡ token_at line.now k }
{
    let mut at = 0;
    for _i in 0..k {
        at = past_token(line, at);
    }
    token_from(line, at)
}

// Where the second token starts.
pub fn second_start(line: &[u8]) -> usize
    ensures { (result ≡ second_start line.now) × (result ≤ length line.now) }
{
    let at = past_token(line, 0);
    past_blanks(line, at)
}

// Does a token end with the byte at `i`?
fn ends_word(s: &[u8], i: usize) -> bool
    requires { i < length s.now }
    ensures { result ≡ ends_word (drop i s.now) }
{
    if is_blank(s[i]) {
        return false;
    }
    let j = i + 1;
    if j < s.len() { is_blank(s[j]) } else { true }
}

// How many tokens there are.
pub fn count_tokens(s: &[u8]) -> usize
    ensures { result ≡ length (tokens s.now) }
{
    let mut n = 0;
    for i in 0..s.len() {
        if ends_word(s, i) {
            n += 1;
        }
    }
    n
}
