// Lines in turn, each with the place where it starts.
ghost use Rattle.std.specs.Prelude.{◌≡◌, ◌-◌, ◌<◌, length, nat_le};
ghost use Rattle.std.specs.List.{list_all};
ghost use Rattle.std.specs.Iterator.{at_most};
ghost use Rattle.reader.specs.Reader.{Reads, line_at, clean_at, is_ascii};

use text::line_end;

// A text and the place in it where the next line starts.
#[derive(Clone, Copy)]
pub struct LineReader<'a> {
    pub text: &'a [u8],
    pub at: usize,
}

impl<'a> LineReader<'a> {
    // At the text's start.
    pub fn new(text: &'a [u8]) -> LineReader<'a>
        ensures { (result.text ≡ text.entry) × (result.at ≡ 0) }
    {
        LineReader { text, at: 0 }
    }

    // Whether there is a line at the reader's place, all of it ASCII. The reader stays there.
    #[tactic(auto, unfolding(crate::specs::Reader::clean_at))]
    pub fn clean(self) -> bool
        ensures { result ≡ clean_at self.entry.text.now self.entry.at }
    {
        self.at < self.text.len() && is_ascii(line_at(self.text, self.at))
    }
}

// The line that starts at a place, without its end.
fn line_at(s: &[u8], at: usize) -> &[u8]
    requires { at < length s.now }
    ensures { result.now ≡ line_at s.now at }
{
    &s[at..line_end(s, at)]
}

// Whether all bytes are at most 127.
fn all_low(s: &[u8]) -> bool
    ensures { result ≡ list_all (λ x. nat_le x 127) s.now }
{
    s.iter().all(|b| *b <= 127)
}

// Whether all bytes are ASCII.
fn is_ascii(s: &[u8]) -> bool
    ensures { result ≡ is_ascii s.now }
{
    all_low(s)
}

impl<'a> Iterator for LineReader<'a> {
    // where the line starts, and the line without its end
    type Item = (usize, &'a [u8]);

    ghost next_gives = { Reads };

    ghost remaining = { λ r. at_most (length r.text.now - r.at) };

    // Past the last line there is none, and the reader stays where it is.
    fn next(&mut self) -> Option<(usize, &'a [u8])> {
        let at = self.at;
        if self.text.len() <= at {
            return None;
        }
        let end = line_end(self.text, at);
        self.at = end + 1;
        Some((at, &self.text[at..end]))
    }
}
