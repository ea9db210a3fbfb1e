// The reader holds the text and its position, and goes from line to line. What a line is and what it adds to the tables is told by
// `enter_line` on the slice and the number.
ghost use Rattle.std.specs.Prelude.{◌≡◌, length, replicate};
ghost use Rattle.spec.specs.Syntax.{name_bound};
ghost use Rattle.spec.specs.Refusal.{refusal, decode};
ghost use Rattle.lines.specs.Read.{fault_number, fault_line};
ghost use Rattle.lines.specs.Verdict.{told, number_of as verdict_number, line_of as verdict_line};
ghost use Rattle.lines.specs.Reader.{number_of, line_of, by_room, read_as, kinds_after, mods_after};
ghost use Rattle.lines.specs.Pass.{Fitting, Fills};

use crate::parse::EACH_NAME;
use crate::read::{Fault, Refusal, TEXT, set_line};
use crate::tables::{KINDS, MODS, ReadError, enter_line, start};

#[derive(Clone, Copy)]
struct Reader<'a> {
    text: &'a [u8],
    at: usize,
}

// 3 to 7, and the tables, line by line.
fn fill<'a, 's, 'k, 'm>(
    text: &'a [u8],
    seen: &'s mut [u8],
    kinds: &'k mut [u8],
    mods: &'m mut [u32],
) -> Result<u32, Refusal>
    requires { (seen.old ≡ replicate name_bound 0) × Fitting text.now kinds.old mods.old }
    ensures { Fills text.now kinds.old mods.old result kinds.new mods.new }
{
    let mut here = Reader { text, at: 0 };
    let mut p = start();
    while here.at < here.text.len() {
        match enter_line(here.text, here.at, p, seen, kinds, mods) {
            Ok(q) => p = q,
            Err(fault) => return Err(Refusal { fault, line: p.row }),
        }
        here.at = p.next;
    }
    Ok(p.modules)
}

// The text's lowest fault on its first faulty line, or its tables. Tables that are too short keep what they hold; of a text that
// is refused they are zero.
pub fn read_text(text: &[u8], kinds: &mut [u8], mods: &mut [u32]) -> Result<u32, ReadError>
    ensures value { result ≡ read_as (length kinds.old) (length mods.old) text.now }
    ensures kinds_after { kinds.new ≡ kinds_after kinds.old (length mods.old) text.now }
    ensures mods_after { mods.new ≡ mods_after mods.old (length kinds.old) text.now }
    ensures result_value { number_of result ≡ by_room 20 (fault_number (refusal text.now)) (length kinds.old) (length mods.old) }
    ensures result_value_2 { line_of result ≡ by_room 0 (fault_line (refusal text.now)) (length kinds.old) (length mods.old) }
{
    if kinds.len() < KINDS {
        return Err(ReadError::Short);
    }
    if mods.len() < MODS {
        return Err(ReadError::Short);
    }
    kinds.fill(0);
    mods.fill(0);
    if TEXT < text.len() {
        return Err(ReadError::Refused(Refusal {
            fault: Fault::TooLong,
            line: 0,
        }));
    }
    if let Some(line) = set_line(text) {
        return Err(ReadError::Refused(Refusal {
            fault: Fault::OutsideSet,
            line,
        }));
    }
    let mut seen = [0u8; EACH_NAME];
    match fill(text, &mut seen, kinds, mods) {
        Err(r) => {
            kinds.fill(0);
            mods.fill(0);
            Err(ReadError::Refused(r))
        }
        Ok(m) => Ok(m),
    }
}

// What a text is refused with, or how many modules it has: for callers that lend no tables.
pub fn read(text: &[u8]) -> Result<u32, Refusal>
    ensures value { result ≡ told (refusal text.now) (length (decode text.now)) }
    ensures result_value { verdict_number result ≡ fault_number (refusal text.now) }
    ensures result_value_2 { verdict_line result ≡ fault_line (refusal text.now) }
{
    let mut kinds = [0u8; KINDS];
    let mut mods = [0u32; MODS];
    match read_text(text, &mut kinds, &mut mods) {
        Err(ReadError::Short) => Ok(0),
        Err(ReadError::Refused(r)) => Err(r),
        Ok(m) => Ok(m),
    }
}
