// What the walk over items asks of an item: what it is, how a `repeat` runs, which branch a `constif` takes, where bodies stand.
#![tactic(auto)]

ghost use Rattle.std.specs.Prelude.{◌≡◌, ◌-◌, ◌||◌};
ghost use Rattle.spec.specs.Value.{is_outside};
ghost use Rattle.consteval.specs.Worth.{worth, refused_if, names_of};
ghost use Rattle.steps.specs.Steps.{head_of, end_within, times_by, times_of, times_number, RoundsFit, low_value, bounds_number, body_at, run_behind, branch_of, chosen_number, condition_number};

use consteval::{Outside, Value};
use lines::{numbers, parts};

pub mod modules;

// What an item is: `Plain` holds no items and asks for no summary.
#[derive(Clone, Copy)]
pub enum Head {
    Plain,
    Inst,
    Repeat,
    ConstIf,
}

// What the item x is, by the bytes that tell its head word from the others.
pub fn head_of(x: &[u8]) -> Head
    ensures { result ≡ head_of x.now }
{
    let c = parts::byte(x, 1);
    if c == b'i' {
        return Head::Inst;
    }
    if c == b'r' {
        if parts::byte(x, 3) == b'p' {
            return Head::Repeat;
        }
        return Head::Plain;
    }
    if c == b'c' {
        if parts::byte(x, 6) == b'i' {
            return Head::ConstIf;
        }
        return Head::Plain;
    }
    Head::Plain
}

// The end of the part behind the byte at `before`, or of x, if that comes first.
fn next_end(x: &[u8], before: usize) -> usize
    ensures { result ≡ end_within x.now before }
{
    if before < x.len() {
        return parts::part_end(x, before + 1);
    }
    x.len()
}

// One bracket less.
fn inner(depth: u32) -> u32
    ensures { result ≡ depth - 1 }
{
    if depth == 0 {
        return 0;
    }
    depth - 1
}

// How often the body of a `repeat` runs: not at all; once, its variable as it stands; or so many rounds, with its variable, its first
// value as v + 2147483648, and their number.
#[derive(Clone, Copy, Debug, PartialEq, Eq)]
pub enum Times {
    Never,
    Once,
    Rounds(u32, u32, u32),
}

// The same by the values of both bounds.
fn way_of(n: u64, low: Value, high: Value, left: u32) -> Result<Times, Outside>
    ensures value { result ≡ times_by left n (worth low) (worth high) }
    ensures rounds_fit { RoundsFit result (worth low) }
    ensures result_value { times_number result ≡ refused_if (is_outside (worth low) || is_outside (worth high)) }
{
    let (low, high) = (low?, high?);
    let Some(l) = low else {
        return Ok(Times::Once);
    };
    let Some(h) = high else {
        return Ok(Times::Once);
    };
    if h <= l {
        return Ok(Times::Never);
    }
    if left < h - l {
        return Ok(Times::Once);
    }
    if 4294967295 < n {
        return Ok(Times::Once);
    }
    Ok(Times::Rounds(n as u32, l, h - l))
}

// How the `repeat` x runs with `left` rounds left; both bounds are evaluated.
pub fn times_of(
    x: &[u8],
    depth: u32,
    names: &[u32],
    used: usize,
    left: u32,
) -> Result<Times, Outside>
    ensures value { result ≡ times_of x.now depth (names_of names.now used) left }
    ensures rounds_fit { RoundsFit result (low_value x.now depth (names_of names.now used)) }
    ensures result_value { times_number result ≡ bounds_number x.now depth (names_of names.now used) }
{
    let h = next_end(x, 0);
    let a = next_end(x, h);
    let b = next_end(x, a);
    let c = next_end(x, b);
    let d = inner(depth);
    let n = numbers::value(parts::between(x, h, a));
    let low = consteval::eval(parts::between(x, a, b), d, names, used);
    let high = consteval::eval(parts::between(x, b, c), d, names, used);
    way_of(n, low, high, left)
}

// Where the run of the body of a `repeat` begins.
pub fn body_at(x: &[u8]) -> usize
    ensures { result ≡ body_at x.now }
{
    let h = next_end(x, 0);
    let a = next_end(x, h);
    let b = next_end(x, a);
    next_end(x, b)
}

// A run of items: it stands behind the byte at `before` and ends before `end`.
#[derive(Clone, Copy, Debug, PartialEq, Eq)]
pub struct Run {
    pub before: usize,
    pub end: usize,
}

// The run inside the `(then I...)` or `(else I...)` that stands behind the byte at e.
fn branch_at(x: &[u8], e: usize) -> Run
    ensures { result ≡ run_behind x.now e }
{
    let end = next_end(x, e);
    if end < 5 {
        return Run { before: end, end };
    }
    if end - 5 < e {
        return Run { before: end, end };
    }
    Run { before: e + 5, end }
}

// Which branch the `constif` x takes: `else` where its condition has no value.
pub fn branch_of(x: &[u8], depth: u32, names: &[u32], used: usize) -> Result<Run, Outside>
    ensures value { result ≡ branch_of x.now depth (names_of names.now used) }
    ensures result_value { chosen_number result ≡ condition_number x.now depth (names_of names.now used) }
{
    let h = next_end(x, 0);
    let a = next_end(x, h);
    let b = next_end(x, a);
    let v = consteval::eval(parts::between(x, h, a), inner(depth), names, used);
    let Some(y) = v? else {
        return Ok(branch_at(x, b));
    };
    if y == 2147483648 {
        return Ok(branch_at(x, b));
    }
    Ok(branch_at(x, a))
}
