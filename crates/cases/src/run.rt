// The cases of a file, one after the other: what differs is printed and counted.
ghost use Rattle.std.specs.Prelude.{◌≡◌};
ghost use Rattle.cases.specs.Stored.{tally, file_of};
ghost use Rattle.cases.specs.Answer.{agrees};

use crate::record;
use lines::parts::{between, byte, rest};

// How many cases were run, and how many differ; what is no case counts as one that differs.
#[derive(Clone, Copy)]
pub struct Tally {
    pub cases: usize,
    pub different: usize,
}

// What cannot be written is left out: it changes no count.
fn print(rt: &impl Print, s: &[u8]) {
    let _ = rt.write_all(s);
}

fn print_answer(rt: &impl Print, s: &[u8]) {
    if s.len() == 0 {
        print(rt, b"nothing\n");
        return;
    }
    print(rt, s);
}

fn print_different(rt: &impl Print, name: &[u8], wanted: &[u8], answered: &[u8]) {
    print(rt, b"different: ");
    print(rt, name);
    print(rt, b"\nexpected: ");
    print_answer(rt, wanted);
    print(rt, b"answered: ");
    print_answer(rt, answered);
}

// The ten cases of the scope, P1 to P10, are printed with their lists; no other name begins so.
fn print_worked(rt: &impl Print, name: &[u8], answered: &[u8]) {
    if byte(name, 0) != b'P' {
        return;
    }
    print(rt, name);
    print(rt, b":\n");
    print_answer(rt, answered);
}

fn print_bad(rt: &impl Print) {
    print(rt, b"not a case\n");
}

// Whether what is printed for a text is the stored answer, byte for byte. Prints it where it is not.
fn compare(rt: &impl Print, name: &[u8], text: &[u8], stored: &[u8]) -> bool
    ensures { result ≡ agrees text.now stored.now }
{
    let mut out = [0u8; program::REPORT];
    let n = program::print_to(text, &mut out);
    let answered = &out[..n];
    if answered == stored {
        print_worked(rt, name, answered);
        return true;
    }
    print_different(rt, name, stored, answered);
    false
}

// The cases of a file.
pub fn run(rt: &impl Print, s: &[u8]) -> Tally
    ensures { result ≡ tally (file_of s.now) }
{
    let mut t = s;
    let mut cases: usize = 0;
    let mut different: usize = 0;
    while 0 < t.len() {
        let Some(r) = record::record_of(t) else {
            print_bad(rt);
            return Tally {
                cases,
                different: different + 1,
            };
        };
        let answer = r.body + r.text;
        cases += 1;
        if !compare(
            rt,
            between(t, 5, r.name),
            record::first(rest(t, r.body), r.text),
            record::first(rest(t, answer), r.answer),
        ) {
            different += 1;
        }
        t = &t[answer + r.answer..];
    }
    Tally { cases, different }
}
