// The parts of a form, as parts of the slice that begin mid-line. A part is known by the place of the byte before it, a bracket or a
// space, and by its end.
ghost use Rattle.std.specs.Prelude.{◌≡◌, get_or, drop};
ghost use Rattle.lines.specs.Parts.{part_end, piece, follows, operands_of, single_of, pair_of, triple_of};

use crate::bytes::{Class, class_of, is_space};

// The ends of the parts behind a head, where there are at most four.
#[derive(Clone, Copy)]
enum Operands {
    Zero,
    One(usize),
    Two(usize, usize),
    Three(usize, usize, usize),
    Four(usize, usize, usize, usize),
    More,
}

// The byte at i, and 0 past the end.
pub fn byte(s: &[u8], i: usize) -> u8
    ensures { result ≡ get_or s.now i 0 }
{
    if i < s.len() { s[i] } else { 0 }
}

// What follows the first k bytes, nothing where there are fewer.
pub fn rest(s: &[u8], k: usize) -> &[u8]
    ensures { result.now ≡ drop k s.now }
{
    if k <= s.len() { &s[k..] } else { &s[s.len()..] }
}

// The end of the part that starts at `at`: the space or the bracket that ends it, or the end of the slice.
pub fn part_end(s: &[u8], at: usize) -> usize
    ensures { result ≡ part_end s.now at }
{
    let mut k: usize = 0;
    for i in at..s.len() {
        match class_of(s[i]) {
            Class::Open => k += 1,
            Class::Close => {
                if k == 0 {
                    return i;
                }
                k -= 1;
            }
            Class::Space => {
                if k == 0 {
                    return i;
                }
            }
            _ => {}
        }
    }
    if at < s.len() { s.len() } else { at }
}

// The bytes behind the one at `before`, up to `end`.
pub fn between(s: &[u8], before: usize, end: usize) -> &[u8]
    ensures { result.now ≡ piece s.now before end }
{
    if s.len() <= before {
        return &s[s.len()..];
    }
    let from = before + 1;
    if s.len() < end {
        return &s[from..];
    }
    if end < from {
        return &s[s.len()..];
    }
    &s[from..end]
}

// Whether another part stands behind the one that ends here.
pub fn more(s: &[u8], end: usize) -> bool
    ensures { result ≡ follows s.now end }
{
    is_space(byte(s, end))
}

// The parts behind the one that ends here, told apart by their number.
fn behind(s: &[u8], end: usize) -> Operands
    ensures { result ≡ operands_of s.now end }
{
    if !more(s, end) {
        return Operands::Zero;
    }
    let a = part_end(s, end + 1);
    if !more(s, a) {
        return Operands::One(a);
    }
    let b = part_end(s, a + 1);
    if !more(s, b) {
        return Operands::Two(a, b);
    }
    let c = part_end(s, b + 1);
    if !more(s, c) {
        return Operands::Three(a, b, c);
    }
    let d = part_end(s, c + 1);
    if !more(s, d) {
        return Operands::Four(a, b, c, d);
    }
    Operands::More
}

// The one part behind the one that ends here, where there is just one.
pub fn as_one(s: &[u8], end: usize) -> Option<usize>
    ensures { result ≡ single_of s.now end }
{
    match behind(s, end) {
        Operands::One(a) => Some(a),
        _ => None,
    }
}

// The two parts behind the one that ends here, where there are just two.
pub fn as_two(s: &[u8], end: usize) -> Option<(usize, usize)>
    ensures { result ≡ pair_of s.now end }
{
    match behind(s, end) {
        Operands::Two(a, b) => Some((a, b)),
        _ => None,
    }
}

// The three parts behind the one that ends here, where there are just three.
pub fn as_three(s: &[u8], end: usize) -> Option<(usize, usize, usize)>
    ensures { result ≡ triple_of s.now end }
{
    match behind(s, end) {
        Operands::Three(a, b, c) => Some((a, b, c)),
        _ => None,
    }
}
