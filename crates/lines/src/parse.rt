// One line's grammar, in one pass. A form is a head word and parts; what parts it may have is a `Shape`: the categories of the next
// parts and how many are still needed. `part` reads one part of a category, brackets at most `depth` deep.
ghost use Rattle.std.specs.Prelude.{◌≡◌, ◌&&◌, drop, ◌-◌};
ghost use Rattle.lines.specs.Parse.{word_at, more_digit, digits_from, number_at, numbered, counted, int_at, op_of, kind_of, either, worded, no_shape, fixed, behind, expr_shape, lone, width_shape, stmt_shape, item_shape, line_shape, shape, shift, literal, atom, scan};

use crate::bytes::{Class, class_of, is_digit, is_minus, is_open, is_word};
use crate::keys;
use crate::kinds::Kind;
use crate::parts::byte;

// Names and MOD are below 256; START and literals below 2,147,483,648.
pub(crate) const NAMES: u64 = 256;
// A place for each name.
pub(crate) const EACH_NAME: usize = NAMES as usize;

const MODS: u64 = 256;

const NUMBERS: u64 = 2147483648;

// What a part is: a number or a word of a kind, an expression, X, T, LV, C, S, I, `(then ..)` and `(else ..)`, a line, or none.
#[derive(Clone, Copy)]
pub(crate) enum Cat {
    Name,
    Start,
    Mod,
    Count,
    Int,
    Kind,
    Dir,
    Bound,
    E,
    X,
    T,
    Lv,
    C,
    S,
    I,
    ThenS,
    ElseS,
    ThenI,
    ElseI,
    L,
    Nothing,
}

// The categories of the next four parts and of all behind them, and how many parts are still needed.
#[derive(Clone, Copy)]
pub(crate) struct Shape {
    pub need: u8,
    pub a: Cat,
    pub b: Cat,
    pub c: Cat,
    pub d: Cat,
    pub last: Cat,
}

// A part that was read: where it ends, whether its numbers are in range (5).
#[derive(Clone, Copy)]
pub(crate) struct Parsed {
    pub next: usize,
    pub range: bool,
}

#[derive(Clone, Copy)]
pub struct Word {
    pub key: u64,
    pub next: usize,
}

// A number, where it is too large some number from 2^32 on, and where it ends.
#[derive(Clone, Copy, Debug, PartialEq, Eq)]
pub struct Number {
    pub value: u64,
    pub next: usize,
}

// The heads of E.
#[derive(Clone, Copy)]
pub(crate) enum Op {
    Name,
    Field,
    Index,
    If,
    All,
    Unary,
    Binary,
    Other,
}

// The word at a position, of at most 7 letters.
pub fn word_at(s: &[u8], at: usize) -> Word
    ensures { result ≡ word_at s.now at }
{
    let mut i = at;
    let mut code: u64 = 0;
    for k in 0..8 {
        let c = byte(s, i);
        if !is_word(c) {
            return Word {
                key: code * 16 + k,
                next: i,
            };
        }
        code = code * 256 + c as u64;
        i += 1;
    }
    Word { key: 0, next: i }
}

// One digit more, while the number is below 2^32.
fn more(a: u64, d: u8) -> u64
    ensures { result ≡ more_digit a d }
{
    if a < 4294967296 { a * 10 + d as u64 } else { a }
}

// The number that the digits from a position on make; 0 for none.
fn digits(s: &[u8], at: usize) -> Number
    ensures { result ≡ digits_from (drop at s.now) at 0 }
{
    let mut a: u64 = 0;
    for i in at..s.len() {
        let c = s[i];
        if !is_digit(c) {
            return Number { value: a, next: i };
        }
        a = more(a, c - b'0');
    }
    Number {
        value: a,
        next: s.len().max(at),
    }
}

// The number at a position: 0, or a digit that is not 0 and all digits behind it.
pub(crate) fn number_at(s: &[u8], at: usize) -> Option<Number>
    ensures { result ≡ number_at s.now at }
{
    let c = byte(s, at);
    if c == b'0' {
        return Some(Number {
            value: 0,
            next: at + 1,
        });
    }
    if !is_digit(c) {
        return None;
    }
    Some(digits(s, at))
}

fn numbered(n: Option<Number>, limit: u64) -> Option<Parsed>
    ensures { result ≡ numbered n limit }
{
    let n = n?;
    Some(Parsed {
        next: n.next,
        range: n.value < limit,
    })
}

fn counted(n: Option<Number>) -> Option<Parsed>
    ensures { result ≡ counted n }
{
    let n = n?;
    Some(Parsed {
        next: n.next,
        range: true,
    })
}

// INT: a number, or a minus and a number that is not 0.
fn int(s: &[u8], at: usize) -> Option<Parsed>
    ensures { result ≡ int_at s.now at }
{
    if !is_minus(byte(s, at)) {
        return numbered(number_at(s, at), NUMBERS);
    }
    if byte(s, at + 1) == b'0' {
        return None;
    }
    numbered(number_at(s, at + 1), NUMBERS + 1)
}

// ---- words

fn op_of(key: u64) -> Op
    ensures { result ≡ op_of key }
{
    match key {
        keys::N => Op::Name,
        keys::F => Op::Field,
        keys::IX => Op::Index,
        keys::IF => Op::If,
        keys::ALL => Op::All,
        keys::NEG => Op::Unary,
        keys::NOT => Op::Unary,
        keys::CLOG2 => Op::Unary,
        keys::ADD => Op::Binary,
        keys::SUB => Op::Binary,
        keys::MUL => Op::Binary,
        keys::EQ => Op::Binary,
        keys::NE => Op::Binary,
        keys::LT => Op::Binary,
        keys::LE => Op::Binary,
        keys::GT => Op::Binary,
        keys::GE => Op::Binary,
        keys::AND => Op::Binary,
        keys::OR => Op::Binary,
        keys::SHL => Op::Binary,
        keys::SHR => Op::Binary,
        keys::BAND => Op::Binary,
        keys::BOR => Op::Binary,
        keys::BXOR => Op::Binary,
        _ => Op::Other,
    }
}

// The kind of a word, if it is one.
pub(crate) fn kind_of(key: u64) -> Option<Kind>
    ensures { result ≡ kind_of key }
{
    match key {
        keys::IN => Some(Kind::In),
        keys::OUT => Some(Kind::Out),
        keys::WIRE => Some(Kind::Wire),
        keys::REG => Some(Kind::Reg),
        keys::MEM => Some(Kind::Mem),
        keys::INST => Some(Kind::Inst),
        _ => None,
    }
}

fn either(key: u64, a: u64, b: u64) -> bool
    ensures { result ≡ either key a b }
{
    key == a || key == b
}

fn worded(ok: bool, next: usize) -> Option<Parsed>
    ensures { result ≡ worded ok next }
{
    if ok {
        Some(Parsed { next, range: true })
    } else {
        None
    }
}

// ---- shapes

fn no_shape() -> Shape
    ensures { result ≡ no_shape }
{
    Shape {
        need: 1,
        a: Cat::Nothing,
        b: Cat::Nothing,
        c: Cat::Nothing,
        d: Cat::Nothing,
        last: Cat::Nothing,
    }
}

fn fixed(need: u8, a: Cat, b: Cat, c: Cat, d: Cat) -> Shape
    ensures { result ≡ fixed need a b c d }
{
    Shape {
        need,
        a,
        b,
        c,
        d,
        last: Cat::Nothing,
    }
}

fn behind(need: u8, a: Cat, b: Cat, c: Cat, d: Cat, last: Cat) -> Shape
    ensures { result ≡ behind need a b c d last }
{
    Shape {
        need,
        a,
        b,
        c,
        d,
        last,
    }
}

// The parts of E.
fn expr_shape(op: Op) -> Shape
    ensures { result ≡ expr_shape op }
{
    let no = Cat::Nothing;
    let e = Cat::E;
    match op {
        Op::Name => fixed(1, Cat::Name, no, no, no),
        Op::Field => fixed(2, e, Cat::Name, no, no),
        Op::Index => fixed(2, e, e, no, no),
        Op::If => fixed(3, e, e, e, no),
        Op::All => behind(0, e, e, e, e, e),
        Op::Unary => fixed(1, e, no, no, no),
        Op::Binary => fixed(2, e, e, no, no),
        Op::Other => no_shape(),
    }
}

// One head only: `q` where it stands, and no shape otherwise.
fn lone(key: u64, head: u64, q: Shape) -> Shape
    ensures { result ≡ lone key head q }
{
    if key == head { q } else { no_shape() }
}

fn width_shape(key: u64) -> Shape
    ensures { result ≡ width_shape key }
{
    let no = Cat::Nothing;
    let e = Cat::E;
    match key {
        keys::BITS => fixed(1, e, no, no, no),
        keys::SIGNED => fixed(1, e, no, no, no),
        _ => no_shape(),
    }
}

fn stmt_shape(key: u64) -> Shape
    ensures { result ≡ stmt_shape key }
{
    let no = Cat::Nothing;
    let s = Cat::S;
    match key {
        keys::SET => fixed(2, Cat::Name, Cat::Start, no, no),
        keys::DEFAULT => fixed(1, Cat::Name, no, no, no),
        keys::LOOP => behind(0, s, s, s, s, s),
        keys::WHEN => fixed(2, Cat::ThenS, Cat::ElseS, no, no),
        _ => no_shape(),
    }
}

fn item_shape(key: u64) -> Shape
    ensures { result ≡ item_shape key }
{
    let no = Cat::Nothing;
    let e = Cat::E;
    match key {
        keys::PORT => fixed(4, Cat::Dir, Cat::Name, Cat::T, Cat::Start),
        keys::WIRE => fixed(3, Cat::Name, e, Cat::Start, no),
        keys::REG => fixed(2, Cat::Name, Cat::Start, no, no),
        keys::MEM => fixed(2, Cat::Name, Cat::Start, no, no),
        keys::CONST => fixed(2, Cat::Name, e, no, no),
        keys::DRIVE => fixed(2, Cat::Lv, e, no, no),
        keys::ON => behind(1, Cat::Start, Cat::S, Cat::S, Cat::S, Cat::S),
        keys::INST => behind(4, Cat::Name, Cat::X, Cat::Mod, Cat::Start, Cat::C),
        keys::REPEAT => behind(3, Cat::Name, e, e, Cat::I, Cat::I),
        keys::CONSTIF => fixed(3, e, Cat::ThenI, Cat::ElseI, no),
        _ => no_shape(),
    }
}

fn line_shape(key: u64) -> Shape
    ensures { result ≡ line_shape key }
{
    let no = Cat::Nothing;
    match key {
        keys::MODULE => fixed(2, Cat::Count, Cat::Bound, no, no),
        keys::KIND => fixed(2, Cat::Name, Cat::Kind, no, no),
        keys::VAL => fixed(2, Cat::Name, Cat::Int, no, no),
        _ => item_shape(key),
    }
}

// The parts behind a head word of a form of a category.
fn shape_of(cat: Cat, key: u64) -> Shape
    ensures { result ≡ shape cat key }
{
    let no = Cat::Nothing;
    let e = Cat::E;
    match cat {
        Cat::Name => no_shape(),
        Cat::Start => no_shape(),
        Cat::Mod => no_shape(),
        Cat::Count => no_shape(),
        Cat::Int => no_shape(),
        Cat::Kind => no_shape(),
        Cat::Dir => no_shape(),
        Cat::Bound => no_shape(),
        Cat::E => expr_shape(op_of(key)),
        Cat::X => expr_shape(op_of(key)),
        Cat::T => width_shape(key),
        Cat::Lv => lone(key, keys::LV, fixed(2, Cat::Name, Cat::Start, e, e)),
        Cat::C => lone(key, keys::CONN, fixed(2, Cat::Name, e, no, no)),
        Cat::S => stmt_shape(key),
        Cat::I => item_shape(key),
        Cat::ThenS => lone(
            key,
            keys::THEN,
            behind(0, Cat::S, Cat::S, Cat::S, Cat::S, Cat::S),
        ),
        Cat::ElseS => lone(
            key,
            keys::ELSE,
            behind(0, Cat::S, Cat::S, Cat::S, Cat::S, Cat::S),
        ),
        Cat::ThenI => lone(
            key,
            keys::THEN,
            behind(0, Cat::I, Cat::I, Cat::I, Cat::I, Cat::I),
        ),
        Cat::ElseI => lone(
            key,
            keys::ELSE,
            behind(0, Cat::I, Cat::I, Cat::I, Cat::I, Cat::I),
        ),
        Cat::L => line_shape(key),
        Cat::Nothing => no_shape(),
    }
}

fn fewer(n: u8) -> u8
    ensures { result ≡ n - 1 }
{
    if n == 0 { 0 } else { n - 1 }
}

// What is left of a shape behind one part.
fn shift(q: Shape) -> Shape
    ensures { result ≡ shift q }
{
    let need = fewer(q.need);
    let a = q.b;
    let b = q.c;
    let c = q.d;
    let d = q.last;
    Shape {
        need,
        a,
        b,
        c,
        d,
        last: d,
    }
}

// ---- parts

fn literal(s: &[u8], at: usize) -> Option<Parsed>
    ensures { result ≡ literal s.now at }
{
    if is_digit(byte(s, at)) {
        return numbered(number_at(s, at), NUMBERS);
    }
    let w = word_at(s, at);
    worded(either(w.key, keys::TRUE, keys::FALSE), w.next)
}

// A part with no brackets.
fn atom(s: &[u8], at: usize, cat: Cat) -> Option<Parsed>
    ensures { result ≡ atom cat s.now at }
{
    match cat {
        Cat::Name => numbered(number_at(s, at), NAMES),
        Cat::Start => numbered(number_at(s, at), NUMBERS),
        Cat::Mod => numbered(number_at(s, at), MODS),
        Cat::Count => counted(number_at(s, at)),
        Cat::Int => int(s, at),
        Cat::Kind => {
            let w = word_at(s, at);
            worded(kind_of(w.key).is_some(), w.next)
        }
        Cat::Dir => {
            let w = word_at(s, at);
            worded(either(w.key, keys::IN, keys::OUT), w.next)
        }
        Cat::Bound => {
            let w = word_at(s, at);
            worded(either(w.key, keys::BOUND, keys::UNBOUND), w.next)
        }
        Cat::E => literal(s, at),
        Cat::X => {
            if is_minus(byte(s, at)) {
                worded(true, at + 1)
            } else {
                literal(s, at)
            }
        }
        Cat::T => {
            let w = word_at(s, at);
            worded(either(w.key, keys::BIT, keys::OPAQUE), w.next)
        }
        _ => None,
    }
}

// The part of a category at a position, at most `depth` brackets deep.
pub(crate) fn part(s: &[u8], at: usize, cat: Cat, depth: u32) -> Option<Parsed>
    ensures { result ≡ scan depth cat s.now at }
{
    if !is_open(byte(s, at)) {
        return atom(s, at, cat);
    }
    if depth == 0 {
        return None;
    }
    let w = word_at(s, at + 1);
    let mut i = w.next;
    let mut q = shape_of(cat, w.key);
    let mut range = true;
    // No form has as many parts as the text has bytes.
    for _ in 0..s.len() {
        match class_of(byte(s, i)) {
            Class::Close => {
                if q.need == 0 {
                    return Some(Parsed { next: i + 1, range });
                }
                return None;
            }
            Class::Space => {
                let p = part(s, i + 1, q.a, depth - 1)?;
                i = p.next;
                range &= p.range;
                q = shift(q);
            }
            _ => return None,
        }
    }
    None
}
