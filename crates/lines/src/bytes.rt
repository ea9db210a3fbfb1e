// Bytes: the class of a byte.
ghost use Rattle.std.specs.Prelude.{◌≡◌, eqb};
ghost use Rattle.lines.specs.Bytes.{class_of, is_digit, is_word};

#[derive(Clone, Copy, Debug, PartialEq, Eq)]
pub enum Class {
    Space,
    Open,
    Close,
    Digit,
    Letter,
    Minus,
    Feed,
    Refused,
    Other,
}

// What a byte is.
pub fn class_of(b: u8) -> Class
    ensures { result ≡ class_of b }
{
    match b {
        10 => Class::Feed,
        32 => Class::Space,
        40 => Class::Open,
        41 => Class::Close,
        45 => Class::Minus,
        48..=57 => Class::Digit,
        65..=90 => Class::Letter,
        97..=122 => Class::Letter,
        0..=31 => Class::Refused,
        127..=255 => Class::Refused,
        _ => Class::Other,
    }
}

pub fn is_space(b: u8) -> bool
    ensures { result ≡ eqb b 32 }
{
    class_of(b) == Class::Space
}

pub fn is_open(b: u8) -> bool
    ensures { result ≡ eqb b 40 }
{
    class_of(b) == Class::Open
}

pub fn is_minus(b: u8) -> bool
    ensures { result ≡ eqb b 45 }
{
    class_of(b) == Class::Minus
}

pub fn is_feed(b: u8) -> bool
    ensures { result ≡ eqb b 10 }
{
    class_of(b) == Class::Feed
}

pub(crate) fn is_digit(b: u8) -> bool
    ensures { result ≡ is_digit (class_of b) }
{
    class_of(b) == Class::Digit
}

// A byte of a word: a letter or a digit.
pub(crate) fn is_word(b: u8) -> bool
    ensures { result ≡ is_word (class_of b) }
{
    matches!(class_of(b), Class::Digit | Class::Letter)
}
