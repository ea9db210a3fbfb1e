// The value of a constant expression, under a name table.
#![tactic(auto)]

ghost use Rattle.std.specs.Prelude.{◌≡◌, [], pos};
ghost use Rattle.spec.specs.Decode.{decode_atom, decode_expr};
ghost use Rattle.spec.specs.Bytes.{number};
ghost use Rattle.spec.specs.Value.{within, value};
ghost use Rattle.consteval.specs.Worth.{worth, names_of};

use crate::shape::Shape;
use lines::bytes::is_open;
use lines::{numbers, parts, words};

pub mod arith;
pub mod fill;
pub mod names;
mod shape;

// A constant is outside INT.
#[derive(Clone, Copy, Debug, PartialEq, Eq)]
pub struct Outside;

// A value v in INT is held as v + 2147483648; `None` where there is none.
pub type Value = Result<Option<u32>, Outside>;

fn literal(e: &[u8]) -> Value
    ensures { worth result ≡ within (pos (number e.now)) }
{
    arith::positive(numbers::value(e))
}

// The value of bytes that are no form: `true`, `false`, or else a literal.
fn atom(e: &[u8]) -> Value
    ensures { worth result ≡ value [] (decode_atom e.now) }
{
    match shape::shape_of(words::word_of(e)) {
        Shape::True => arith::truth(true),
        Shape::False => arith::truth(false),
        _ => literal(e),
    }
}

// The value of the expression e, at most `depth` brackets deep, under the first `used` pairs of `names`.
pub fn eval(e: &[u8], depth: u32, names: &[u32], used: usize) -> Value
    ensures { worth result ≡ value (names_of names.now used) (decode_expr depth e.now) }
{
    if depth == 0 {
        return atom(e);
    }
    if !is_open(parts::byte(e, 0)) {
        return atom(e);
    }
    let h = parts::part_end(e, 1);
    match shape::shape_of(words::word_of(parts::between(e, 0, h))) {
        Shape::Name => {
            let Some(a) = parts::as_one(e, h) else {
                return Ok(None);
            };
            Ok(names::look_up(names, used, numbers::value(parts::between(e, h, a))))
        }
        Shape::If => {
            let Some((a, b, c)) = parts::as_three(e, h) else {
                return Ok(None);
            };
            let Some(x) = eval(parts::between(e, h, a), depth - 1, names, used)? else {
                return Ok(None);
            };
            if x == 2147483648 {
                eval(parts::between(e, b, c), depth - 1, names, used)
            } else {
                eval(parts::between(e, a, b), depth - 1, names, used)
            }
        }
        Shape::One(o) => {
            let Some(a) = parts::as_one(e, h) else {
                return Ok(None);
            };
            let Some(x) = eval(parts::between(e, h, a), depth - 1, names, used)? else {
                return Ok(None);
            };
            arith::unary(o, x)
        }
        Shape::Two(o) => {
            let Some((a, b)) = parts::as_two(e, h) else {
                return Ok(None);
            };
            let Some(x) = eval(parts::between(e, h, a), depth - 1, names, used)? else {
                return Ok(None);
            };
            let Some(y) = eval(parts::between(e, a, b), depth - 1, names, used)? else {
                return Ok(None);
            };
            arith::binary(o, x, y)
        }
        Shape::True => Ok(None),
        Shape::False => Ok(None),
        Shape::None => Ok(None),
    }
}
