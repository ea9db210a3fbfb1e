// The operators on values. A value v is held as v + 2147483648; what leaves INT is outside.
ghost use Rattle.std.specs.Borrow.{Bor};
ghost use Rattle.std.specs.Prelude.{◌≡◌, ◌/◌, ◌^◌, pos, neg_ℤ, ◌+ℤ◌, ◌-ℤ◌, ◌*ℤ◌};
ghost use Rattle.std.proofs.Math.IntN.{sub_ℕ};
ghost use Rattle.spec.specs.Bits.{bits_and, bits_or, bits_xor, shift_down};
ghost use Rattle.spec.specs.Value.{within, truth_value, clog2_bits, clog2_value, unary_value, shl_value, shr_value, binary_value};
ghost use Rattle.spec.specs.Syntax.{and, or};
ghost use Rattle.consteval.specs.Worth.{signed, worth, unary_of, binary_of};

use crate::shape::{Binary, Unary};
use crate::{Outside, Value};

pub(crate) fn positive(n: u64) -> Value
    ensures { worth result ≡ within (pos n) }
{
    if n < 2147483648 {
        return Ok(Some((n + 2147483648) as u32));
    }
    Err(Outside)
}

pub(crate) fn negative(n: u64) -> Value
    ensures { worth result ≡ within (neg_ℤ (pos n)) }
{
    if n <= 2147483648 {
        return Ok(Some((2147483648 - n) as u32));
    }
    Err(Outside)
}

fn difference(a: u64, b: u64) -> Value
    ensures { worth result ≡ within (sub_ℕ a b) }
{
    if a < b {
        negative(b - a)
    } else {
        positive(a - b)
    }
}

pub fn truth(b: bool) -> Value
    ensures { worth result ≡ truth_value b }
{
    if b {
        Ok(Some(2147483649))
    } else {
        Ok(Some(2147483648))
    }
}

fn neg(x: u32) -> Value
    ensures { worth result ≡ within (neg_ℤ (signed x)) }
{
    difference(2147483648, x as u64)
}

fn add(x: u32, y: u32) -> Value
    ensures { worth result ≡ within (signed x +ℤ signed y) }
{
    difference(x as u64 + y as u64, 4294967296)
}

fn sub(x: u32, y: u32) -> Value
    ensures { worth result ≡ within (signed x -ℤ signed y) }
{
    difference(x as u64 + 2147483648, y as u64 + 2147483648)
}

// The product of the amounts, by the signs.
fn mul(x: u32, y: u32) -> Value
    ensures { worth result ≡ within (signed x *ℤ signed y) }
{
    if x < 2147483648 {
        if y < 2147483648 {
            return positive((2147483648 - x) as u64 * (2147483648 - y) as u64);
        }
        return negative((2147483648 - x) as u64 * (y - 2147483648) as u64);
    }
    if y < 2147483648 {
        return negative((x - 2147483648) as u64 * (2147483648 - y) as u64);
    }
    positive((x - 2147483648) as u64 * (y - 2147483648) as u64)
}

// How many bits address n items, at least 1.
fn clog2_bits(n: u32) -> u32
    ensures { result ≡ clog2_bits n }
{
    if n < 2 {
        1
    } else {
        32 - u32::leading_zeros(n - 1)
    }
}

fn clog2(x: u32) -> Value
    ensures { worth result ≡ clog2_value (signed x) }
{
    if x <= 2147483648 {
        return Ok(None);
    }
    positive(clog2_bits(x - 2147483648) as u64)
}

pub(crate) fn unary(o: Unary, x: u32) -> Value
    ensures { worth result ≡ unary_value (unary_of o) (signed x) }
{
    match o {
        Unary::Neg => neg(x),
        Unary::Not => truth(x == 2147483648),
        Unary::Clog2 => clog2(x),
    }
}

// Anything but 0 is true.
fn both(x: u32, y: u32) -> Value
    ensures { worth result ≡ binary_value and (signed x) (signed y) }
{
    if x == 2147483648 {
        return truth(false);
    }
    truth(y != 2147483648)
}

fn either(x: u32, y: u32) -> Value
    ensures { worth result ≡ binary_value or (signed x) (signed y) }
{
    if x == 2147483648 {
        return truth(y != 2147483648);
    }
    truth(true)
}

// No value by a negative amount, nor of 0 by 999,999 or more, which is the original's limit on widths.
fn shl(x: u32, y: u32) -> Value
    ensures { worth result ≡ shl_value (signed x) (signed y) }
{
    if y < 2147483648 {
        return Ok(None);
    }
    let n = y - 2147483648;
    if x == 2147483648 {
        if n < 999999 {
            return Ok(Some(x));
        }
        return Ok(None);
    }
    if n >= 32 {
        return Err(Outside);
    }
    if x < 2147483648 {
        return negative(((2147483648 - x) as u64) << n);
    }
    positive(((x - 2147483648) as u64) << n)
}

// n divided by 2 to the k, rounded down.
fn halved(n: u32, k: u32) -> u32
    ensures { result ≡ n / 2 ^ k }
{
    if k < 32 {
        return n >> k;
    }
    0
}

// Below 0 a value is -(n + 1) with n from 0 up, and n is what is shifted: the quotient is rounded down.
fn shift_down(x: u32, k: u32) -> u32
    ensures { signed result ≡ shift_down (signed x) k }
{
    if x < 2147483648 {
        let n = halved(2147483647 - x, k);
        return 2147483647 - n;
    }
    let n = halved(x - 2147483648, k);
    n + 2147483648
}

// No value by a negative amount.
fn shr(x: u32, y: u32) -> Value
    ensures { worth result ≡ shr_value (signed x) (signed y) }
{
    if y >= 2147483648 {
        return Ok(Some(shift_down(x, y - 2147483648)));
    }
    Ok(None)
}

// A word with its top bit inverted is the two's complement of the value that it holds. These three invert it, and invert it back.
fn band(x: u32, y: u32) -> u32
    ensures { signed result ≡ bits_and (signed x) (signed y) }
{
    ((x ^ 2147483648) & (y ^ 2147483648)) ^ 2147483648
}

fn bor(x: u32, y: u32) -> u32
    ensures { signed result ≡ bits_or (signed x) (signed y) }
{
    ((x ^ 2147483648) | (y ^ 2147483648)) ^ 2147483648
}

fn bxor(x: u32, y: u32) -> u32
    ensures { signed result ≡ bits_xor (signed x) (signed y) }
{
    ((x ^ 2147483648) ^ (y ^ 2147483648)) ^ 2147483648
}

pub(crate) fn binary(o: Binary, x: u32, y: u32) -> Value
    ensures { worth result ≡ binary_value (binary_of o) (signed x) (signed y) }
{
    match o {
        Binary::Add => add(x, y),
        Binary::Sub => sub(x, y),
        Binary::Mul => mul(x, y),
        Binary::Eq => truth(x == y),
        Binary::Ne => truth(x != y),
        Binary::Lt => truth(x < y),
        Binary::Le => truth(x <= y),
        Binary::Gt => truth(y < x),
        Binary::Ge => truth(y <= x),
        Binary::And => both(x, y),
        Binary::Or => either(x, y),
        Binary::Shl => shl(x, y),
        Binary::Shr => shr(x, y),
        Binary::Band => Ok(Some(band(x, y))),
        Binary::Bor => Ok(Some(bor(x, y))),
        Binary::Bxor => Ok(Some(bxor(x, y))),
    }
}
