// Parts of a text: without some bytes at its front or end, compared in place.
ghost use Rattle.std.specs.Prelude.{◌≡◌};
ghost use Rattle.base.specs.Bytes.{same};
ghost use Rattle.text.specs.Parts.{equals, is_blank, drop_end, drop_front};

use crate::blanks::is_blank;

// Are the two the same bytes? Names of one length often begin alike and differ in a number at the end: so they are compared from the end
// on, four bytes at a time, and with every four one at the front, for names that end alike.
pub fn same(a: &[u8], b: &[u8]) -> bool
    ensures { result ≡ same a.now b.now }
{
    let n = a.len();
    if n != b.len() {
        return false;
    }
    let by_fours = (0..n / 4).all(|i| {
        let e = n - 4 * i;
        a[e - 1] == b[e - 1]
            && a[e - 2] == b[e - 2]
            && a[e - 3] == b[e - 3]
            && a[e - 4] == b[e - 4]
            && a[i] == b[i]
    });
    let rest = n % 4;
    by_fours && (0..rest).all(|i| a[rest - 1 - i] == b[rest - 1 - i])
}

// Without all bytes `b` at the end.
#[tactic(auto, using(crate::proofs::PartLaws::end_laws))]
pub fn drop_final(s: &[u8], b: u8) -> &[u8]
    ensures { result.now ≡ drop_end (equals b) s.now }
{
    let mut part = s;
    while let [front @ .., last] = part {
        if *last != b {
            return part;
        }
        part = front;
    }
    part
}

// Without all bytes `b` at the front.
pub fn drop_leading(s: &[u8], b: u8) -> &[u8]
    ensures { result.now ≡ drop_front (equals b) s.now }
{
    let n = s.iter().position(|x| *x != b).unwrap_or(s.len());
    &s[n..]
}

// Without the blanks at the end.
#[tactic(auto, using(crate::proofs::PartLaws::end_laws))]
pub fn trim_end(s: &[u8]) -> &[u8]
    ensures { result.now ≡ drop_end is_blank s.now }
{
    let mut part = s;
    while let [front @ .., last] = part {
        if !is_blank(*last) {
            return part;
        }
        part = front;
    }
    part
}
