// The name table of a module: its `val` lines, then its `const` lines, in order.
ghost use Rattle.std.specs.Borrow.{Bor};
ghost use Rattle.std.specs.Prelude.{◌≡◌, true, ◌<◌};
ghost use Rattle.spec.specs.Bytes.{integer};
ghost use Rattle.spec.specs.Decode.{decode_line};
ghost use Rattle.spec.specs.Refusal.{lines, line_in_range};
ghost use Rattle.spec.specs.Value.{within};
ghost use Rattle.consteval.specs.declared.fill.FillError.TheVariants.{Outside as left};
ghost use Rattle.consteval.specs.Worth.{worth, number_of, refused_if, names_of};
ghost use Rattle.consteval.specs.Fill.{line_end, role, held, entry_number, val_of_line, const_of_line, filling, entry_of, entries_of, fill_of, line_out, Fills};

use crate::{Outside, Value, arith, names};
use lines::bytes::{is_feed, is_minus};
use lines::words::Word;
use lines::{numbers, parts, words};

// Why there is no table: a constant is outside INT, there are more names than places, or a number is out of its range, which no accepted
// text has.
#[derive(Clone, Copy, Debug, PartialEq, Eq)]
pub enum FillError {
    Outside,
    Short,
    Bad,
}

impl From<Outside> for FillError {
    ghost from_gives = { λ _ e. e ≡ left };

    fn from(_e: Outside) -> FillError {
        FillError::Outside
    }
}

// What the table is filled from: a header's lines, or those of items.
#[derive(Clone, Copy)]
enum Source {
    Header,
    Items,
}

#[derive(Clone, Copy)]
enum Role {
    Val,
    Const,
    Other,
}

// The end of the line that starts at `at`: its line feed, or the end of the slice.
fn end_of(s: &[u8], at: usize) -> usize
    ensures { result ≡ line_end s.now at }
{
    for i in at..s.len() {
        if is_feed(s[i]) {
            return i;
        }
    }
    if at < s.len() { s.len() } else { at }
}

fn role_of(w: Word) -> Role
    ensures { result ≡ role w }
{
    match w {
        Word::Val => Role::Val,
        Word::Const => Role::Const,
        _ => Role::Other,
    }
}

// The INT of a `val` line.
fn whole(s: &[u8]) -> Value
    ensures { worth result ≡ within (integer s.now) }
{
    if is_minus(parts::byte(s, 0)) {
        return arith::negative(numbers::value(parts::rest(s, 1)));
    }
    arith::positive(numbers::value(s))
}

// A name and its value, as they are held.
fn to_hold(n: u64, v: Value) -> Result<Option<(u32, u32)>, FillError>
    ensures value { result ≡ held n (worth v) }
    ensures result_value { n < 4294967296 → entry_number result ≡ number_of v }
{
    let Some(x) = v? else {
        return Ok(None);
    };
    if n < 4294967296 {
        return Ok(Some((n as u32, x)));
    }
    Err(FillError::Bad)
}

// What a header line adds: a `val` its name and INT.
fn val_entry(s: &[u8]) -> Result<Option<(u32, u32)>, FillError>
    ensures value { result ≡ val_of_line (decode_line s.now) }
    ensures result_value { line_in_range (decode_line s.now) ≡ true → entry_number result ≡ 0 }
{
    if s.len() == 0 {
        return Ok(None);
    }
    let h = parts::part_end(s, 1);
    let Role::Val = role_of(words::word_of(parts::between(s, 0, h))) else {
        return Ok(None);
    };
    let Some((a, b)) = parts::as_two(s, h) else {
        return Ok(None);
    };
    to_hold(
        numbers::value(parts::between(s, h, a)),
        whole(parts::between(s, a, b)),
    )
}

// What an item line adds: a `const` its name and value, under the table so far.
fn const_entry(s: &[u8], names: &[u32], used: usize) -> Result<Option<(u32, u32)>, FillError>
    ensures value { result ≡ const_of_line (names_of names.now used) (decode_line s.now) }
    ensures result_value { line_in_range (decode_line s.now) ≡ true
        → entry_number result ≡ refused_if (line_out (names_of names.now used) (decode_line s.now)) }
{
    if s.len() == 0 {
        return Ok(None);
    }
    let h = parts::part_end(s, 1);
    let Role::Const = role_of(words::word_of(parts::between(s, 0, h))) else {
        return Ok(None);
    };
    let Some((a, b)) = parts::as_two(s, h) else {
        return Ok(None);
    };
    to_hold(
        numbers::value(parts::between(s, h, a)),
        crate::eval(parts::between(s, a, b), 31, names, used),
    )
}

// What a line adds, as a header's line or as an item's line under the table so far.
fn entry(
    from: Source,
    s: &[u8],
    names: &[u32],
    used: usize,
) -> Result<Option<(u32, u32)>, FillError>
    ensures { result ≡ entry_of from (names_of names.now used) (decode_line s.now) }
{
    match from {
        Source::Header => val_entry(s),
        Source::Items => const_entry(s, names, used),
    }
}

// Puts what the lines of s add behind the pairs that are used, and counts them with these.
fn fill_lines(
    from: Source,
    s: &[u8],
    names: &mut [u32],
    mut used: usize,
) -> Result<usize, FillError>
    ensures { filling result names.new ≡ entries_of from (lines s.now) names.old used }
{
    let mut at: usize = 0;
    while at < s.len() {
        let e = end_of(s, at);
        if let Some((n, v)) = entry(from, &s[at..e], names, used)? {
            if !names::push(names, used, n, v) {
                return Err(FillError::Short);
            }
            used += 1;
        }
        at = e + 1;
    }
    Ok(used)
}

// The table of a module, from its header's lines and its items' lines.
pub fn fill(header: &[u8], items: &[u8], names: &mut [u32]) -> Result<usize, FillError>
    ensures names_after { filling result names.new ≡ fill_of header.now items.now names.old }
    ensures fills { Fills result header.now items.now names.new }
{
    let used = fill_lines(Source::Header, header, names, 0)?;
    fill_lines(Source::Items, items, names, used)
}
