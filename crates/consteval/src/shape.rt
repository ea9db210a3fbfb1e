// What a head word makes of an expression.
ghost use Rattle.std.specs.Borrow.{Bor};
ghost use Rattle.std.specs.Prelude.{◌≡◌};
ghost use Rattle.consteval.specs.Worth.{shape};

use lines::words::Word;

#[derive(Clone, Copy)]
pub(crate) enum Unary {
    Neg,
    Not,
    Clog2,
}

#[derive(Clone, Copy)]
pub(crate) enum Binary {
    Add,
    Sub,
    Mul,
    Eq,
    Ne,
    Lt,
    Le,
    Gt,
    Ge,
    And,
    Or,
    Shl,
    Shr,
    Band,
    Bor,
    Bxor,
}

#[derive(Clone, Copy)]
pub(crate) enum Shape {
    Name,
    If,
    One(Unary),
    Two(Binary),
    True,
    False,
    None,
}

pub(crate) fn shape_of(w: Word) -> Shape
    ensures { result ≡ shape w }
{
    match w {
        Word::N => Shape::Name,
        Word::If => Shape::If,
        Word::Neg => Shape::One(Unary::Neg),
        Word::Not => Shape::One(Unary::Not),
        Word::Clog2 => Shape::One(Unary::Clog2),
        Word::Add => Shape::Two(Binary::Add),
        Word::Sub => Shape::Two(Binary::Sub),
        Word::Mul => Shape::Two(Binary::Mul),
        Word::Eq => Shape::Two(Binary::Eq),
        Word::Ne => Shape::Two(Binary::Ne),
        Word::Lt => Shape::Two(Binary::Lt),
        Word::Le => Shape::Two(Binary::Le),
        Word::Gt => Shape::Two(Binary::Gt),
        Word::Ge => Shape::Two(Binary::Ge),
        Word::And => Shape::Two(Binary::And),
        Word::Or => Shape::Two(Binary::Or),
        Word::Shl => Shape::Two(Binary::Shl),
        Word::Shr => Shape::Two(Binary::Shr),
        Word::Band => Shape::Two(Binary::Band),
        Word::Bor => Shape::Two(Binary::Bor),
        Word::Bxor => Shape::Two(Binary::Bxor),
        Word::True => Shape::True,
        Word::False => Shape::False,
        _ => Shape::None,
    }
}
