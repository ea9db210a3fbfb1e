// What a line is: its lowest fault, 3 to 7, or what it adds; and fault 2, over the whole text.
ghost use Rattle.std.specs.Prelude.{◌≡◌, ◌≤◌, length, drop};
ghost use Rattle.lines.specs.Read.{closes_at, not_written, set_line, number_after, module_step, kind_step, head_step, line_step, fault_code};

use crate::bytes::{Class, class_of, is_feed, is_open, is_space};
use crate::keys;
use crate::parse::{Cat, NAMES, Number, number_at, part, word_at};
use crate::parts::byte;

pub(crate) const TEXT: usize = 32768;

pub(crate) const MODULES: u32 = 32;

pub(crate) const DEPTH: u32 = 32;

// What is wrong with a text, 1 and 2, or with one of its lines, 3 to 7, in order.
#[derive(Clone, Copy, Debug, PartialEq, Eq)]
pub enum Fault {
    TooLong,
    OutsideSet,
    NotOneForm,
    BadlyWritten,
    OutOfRange,
    OutOfPlace,
    OneTooMany,
}

// Its number in the specification.
impl From<Fault> for u32 {
    ghost from_gives = { λ f n. n ≡ fault_code f };

    fn from(f: Fault) -> u32 {
        match f {
            Fault::TooLong => 1,
            Fault::OutsideSet => 2,
            Fault::NotOneForm => 3,
            Fault::BadlyWritten => 4,
            Fault::OutOfRange => 5,
            Fault::OutOfPlace => 6,
            Fault::OneTooMany => 7,
        }
    }
}

// What a line adds, with the place of its line feed.
#[derive(Clone, Copy)]
pub(crate) enum Step {
    Module(usize),
    Kind(usize, usize),
    Val(usize),
    Item(usize),
}

// Whether the bracket that closes what stands open, one bracket at `at`, ends the line, and no more than 32 are open before it.
fn closes(s: &[u8], at: usize) -> bool
    ensures { result ≡ closes_at 1 (drop at s.now) }
{
    let mut k: u32 = 1;
    for i in at..s.len() {
        match class_of(s[i]) {
            Class::Feed => return false,
            Class::Open => {
                if DEPTH <= k {
                    return false;
                }
                k += 1;
            }
            Class::Close => {
                if k == 1 {
                    return is_feed(byte(s, i + 1));
                }
                k -= 1;
            }
            _ => {}
        }
    }
    false
}

// The fault of a line that is not well written, behind its opening bracket.
fn not_written(s: &[u8], at: usize) -> Fault
    ensures { result ≡ not_written s.now at }
{
    if closes(s, at) {
        Fault::BadlyWritten
    } else {
        Fault::NotOneForm
    }
}

// The line of the first byte outside the set, or of a text's end without a line feed.
pub(crate) fn set_line(s: &[u8]) -> Option<u32>
    requires { length s.now ≤ 32768 }
    ensures { result ≡ set_line s.now }
{
    let mut n: u32 = 1;
    for &b in s {
        match class_of(b) {
            Class::Feed => n += 1,
            Class::Refused => return Some(n),
            _ => {}
        }
    }
    match s.last() {
        None => None,
        Some(&b) if is_feed(b) => None,
        Some(_) => Some(n),
    }
}

// The number behind a space.
pub fn number_after(s: &[u8], at: usize) -> Option<Number>
    ensures { result ≡ number_after s.now at }
{
    if !is_space(byte(s, at)) {
        return None;
    }
    number_at(s, at + 1)
}

fn module_step(n: Option<Number>, modules: u32, feed: usize) -> Result<Step, Fault>
    ensures { result ≡ module_step n modules feed }
{
    let Some(n) = n else {
        return Err(Fault::BadlyWritten);
    };
    if n.value != modules as u64 {
        return Err(Fault::OutOfPlace);
    }
    if MODULES <= modules {
        return Err(Fault::OneTooMany);
    }
    Ok(Step::Module(feed))
}

fn kind_step(n: Option<Number>, seen: &[u8], feed: usize) -> Result<Step, Fault>
    ensures { result ≡ kind_step n seen.now feed }
{
    let Some(n) = n else {
        return Err(Fault::BadlyWritten);
    };
    if NAMES <= n.value {
        return Err(Fault::OutOfRange);
    }
    let name = n.value as usize;
    if byte(seen, name) != 0 {
        return Err(Fault::OneTooMany);
    }
    Ok(Step::Kind(feed, name))
}

// A line that is well written and in range, by its head.
fn head_step(
    s: &[u8],
    at: usize,
    feed: usize,
    modules: u32,
    items: bool,
    seen: &[u8],
) -> Result<Step, Fault>
    ensures { result ≡ head_step s.now at feed modules items seen.now }
{
    let w = word_at(s, at);
    let key = w.key;
    if key == keys::MODULE {
        return module_step(number_after(s, w.next), modules, feed);
    }
    if modules == 0 {
        return Err(Fault::OutOfPlace);
    }
    if key == keys::KIND {
        if items {
            return Err(Fault::OutOfPlace);
        }
        return kind_step(number_after(s, w.next), seen, feed);
    }
    if key == keys::VAL {
        if items {
            return Err(Fault::OutOfPlace);
        }
        return Ok(Step::Val(feed));
    }
    Ok(Step::Item(feed))
}

// The line that starts at a position.
pub(crate) fn line_step(
    s: &[u8],
    at: usize,
    modules: u32,
    items: bool,
    seen: &[u8],
) -> Result<Step, Fault>
    ensures { result ≡ line_step s.now at modules items seen.now }
{
    if !is_open(byte(s, at)) {
        return Err(Fault::NotOneForm);
    }
    let Some(p) = part(s, at, Cat::L, DEPTH) else {
        return Err(not_written(s, at + 1));
    };
    if !is_feed(byte(s, p.next)) {
        return Err(not_written(s, at + 1));
    }
    if !p.range {
        return Err(Fault::OutOfRange);
    }
    head_step(s, at + 1, p.next, modules, items, seen)
}

// The lowest fault of the text on its first faulty line, 0 where it is too long: a text that is refused.
#[derive(Clone, Copy, Debug, PartialEq, Eq)]
pub struct Refusal {
    pub fault: Fault,
    pub line: u32,
}
