// A file of stored cases: records with nothing between them, each a line `(case NAME TEXTLEN ANSWERLEN)`, so many bytes of text and so
// many of answer.
ghost use Rattle.std.specs.Prelude.{◌≡◌, take};
ghost use Rattle.cases.specs.Stored.{case_key, sized, closed, named, record_of};

use lines::bytes::{Class, class_of, is_feed, is_open};
use lines::parse::word_at;
use lines::parts::{byte, part_end};
use lines::read::number_after;

// `case` as `word_at` gives it.
const CASE: u64 = 0x636173654;

// A record at the head of some bytes: where its name ends, where its text begins, how many bytes text and answer have.
#[derive(Clone, Copy, Debug, PartialEq, Eq)]
pub struct Record {
    pub name: usize,
    pub body: usize,
    pub text: usize,
    pub answer: usize,
}

// The first n bytes, all where there are fewer.
pub fn first(s: &[u8], n: usize) -> &[u8]
    ensures { result.now ≡ take n s.now }
{
    if n <= s.len() { &s[..n] } else { s }
}

// Whether a record begins here.
fn is_case(s: &[u8]) -> bool
    ensures { result ≡ case_key s.now }
{
    if !is_open(byte(s, 0)) {
        return false;
    }
    let w = word_at(s, 1);
    w.key == CASE
}

// A record whose text and answer lie in the bytes.
fn sized(s: &[u8], name: usize, body: usize, text: u64, answer: u64) -> Option<Record>
    ensures { result ≡ sized s.now name body text answer }
{
    if s.len() < body {
        return None;
    }
    let left = (s.len() - body) as u64;
    if left < text {
        return None;
    }
    if left - text < answer {
        return None;
    }
    Some(Record {
        name,
        body,
        text: text as usize,
        answer: answer as usize,
    })
}

// A record whose line is closed here.
fn closed(s: &[u8], name: usize, at: usize, text: u64, answer: u64) -> Option<Record>
    ensures { result ≡ closed s.now name at text answer }
{
    match class_of(byte(s, at)) {
        Class::Close => {
            if !is_feed(byte(s, at + 1)) {
                return None;
            }
            sized(s, name, at + 2, text, answer)
        }
        _ => None,
    }
}

// A record whose name ends here.
fn named(s: &[u8], name: usize) -> Option<Record>
    ensures { result ≡ named s.now name }
{
    let text = number_after(s, name)?;
    let answer = number_after(s, text.next)?;
    closed(s, name, answer.next, text.value, answer.value)
}

// The record that these bytes begin with.
pub fn record_of(s: &[u8]) -> Option<Record>
    ensures { result ≡ record_of s.now }
{
    if is_case(s) {
        named(s, part_end(s, 6))
    } else {
        None
    }
}
