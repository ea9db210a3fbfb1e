// The kinds of names, and the bytes that stand for them in a table of kinds.
ghost use Rattle.std.specs.Prelude.{◌≡◌, get_or};
ghost use Rattle.lines.specs.Kinds.{byte_of, kind_by};

use crate::parts::byte;

#[derive(Clone, Copy, Debug, PartialEq, Eq)]
pub enum Kind {
    In,
    Out,
    Wire,
    Reg,
    Mem,
    Inst,
}

// The byte of a kind, and 0 for none.
pub(crate) fn byte_of(kind: Option<Kind>) -> u8
    ensures { result ≡ byte_of kind }
{
    match kind {
        None => 0,
        Some(Kind::In) => 1,
        Some(Kind::Out) => 2,
        Some(Kind::Wire) => 3,
        Some(Kind::Reg) => 4,
        Some(Kind::Mem) => 5,
        Some(Kind::Inst) => 6,
    }
}

// The kind of the name n, none past the end. A table may hold any bytes: from 6 on all are an inst.
pub fn kind_at(kinds: &[u8], n: usize) -> Option<Kind>
    ensures { result ≡ kind_by (get_or kinds.now n 0) }
{
    match byte(kinds, n) {
        0 => None,
        1 => Some(Kind::In),
        2 => Some(Kind::Out),
        3 => Some(Kind::Wire),
        4 => Some(Kind::Reg),
        5 => Some(Kind::Mem),
        _ => Some(Kind::Inst),
    }
}
