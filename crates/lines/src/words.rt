// The words of a line told apart.
ghost use Rattle.std.specs.Borrow.{Bor};
ghost use Rattle.std.specs.Prelude.{◌≡◌};
ghost use Rattle.lines.specs.Words.{key_of, word_of};

#[derive(Clone, Copy)]
pub enum Word {
    N,
    F,
    Ix,
    If,
    All,
    Neg,
    Not,
    Clog2,
    Add,
    Sub,
    Mul,
    Eq,
    Ne,
    Lt,
    Le,
    Gt,
    Ge,
    And,
    Or,
    Shl,
    Shr,
    Band,
    Bor,
    Bxor,
    True,
    False,
    Bit,
    Opaque,
    Bits,
    Signed,
    Lv,
    Set,
    Default,
    Loop,
    When,
    Then,
    Else,
    Conn,
    Dash,
    Port,
    Wire,
    Reg,
    Mem,
    Const,
    Drive,
    On,
    Inst,
    Repeat,
    ConstIf,
    In,
    Out,
    Module,
    Kind,
    Val,
    Bound,
    Unbound,
    Other,
}

// A word of at most seven bytes as a number: its bytes from the last to the first, behind a 1. Two words never have the same number.
fn key(w: &[u8]) -> u64
    ensures { result ≡ key_of w.now }
{
    if 7 < w.len() {
        return 0;
    }
    let mut k: u64 = 1;
    for i in (0..w.len()).rev() {
        k = k * 256 + w[i] as u64;
    }
    k
}

pub fn word_of(w: &[u8]) -> Word
    ensures { result ≡ word_of w.now }
{
    match key(w) {
        0x16e => Word::N,
        0x166 => Word::F,
        0x17869 => Word::Ix,
        0x16669 => Word::If,
        0x16c6c61 => Word::All,
        0x167656e => Word::Neg,
        0x1746f6e => Word::Not,
        0x132676f6c63 => Word::Clog2,
        0x1646461 => Word::Add,
        0x1627573 => Word::Sub,
        0x16c756d => Word::Mul,
        0x17165 => Word::Eq,
        0x1656e => Word::Ne,
        0x1746c => Word::Lt,
        0x1656c => Word::Le,
        0x17467 => Word::Gt,
        0x16567 => Word::Ge,
        0x1646e61 => Word::And,
        0x1726f => Word::Or,
        0x16c6873 => Word::Shl,
        0x1726873 => Word::Shr,
        0x1646e6162 => Word::Band,
        0x1726f62 => Word::Bor,
        0x1726f7862 => Word::Bxor,
        0x165757274 => Word::True,
        0x165736c6166 => Word::False,
        0x1746962 => Word::Bit,
        0x165757161706f => Word::Opaque,
        0x173746962 => Word::Bits,
        0x164656e676973 => Word::Signed,
        0x1766c => Word::Lv,
        0x1746573 => Word::Set,
        0x1746c7561666564 => Word::Default,
        0x1706f6f6c => Word::Loop,
        0x16e656877 => Word::When,
        0x16e656874 => Word::Then,
        0x165736c65 => Word::Else,
        0x16e6e6f63 => Word::Conn,
        0x12d => Word::Dash,
        0x174726f70 => Word::Port,
        0x165726977 => Word::Wire,
        0x1676572 => Word::Reg,
        0x16d656d => Word::Mem,
        0x174736e6f63 => Word::Const,
        0x16576697264 => Word::Drive,
        0x16e6f => Word::On,
        0x174736e69 => Word::Inst,
        0x1746165706572 => Word::Repeat,
        0x1666974736e6f63 => Word::ConstIf,
        0x16e69 => Word::In,
        0x174756f => Word::Out,
        0x1656c75646f6d => Word::Module,
        0x1646e696b => Word::Kind,
        0x16c6176 => Word::Val,
        0x1646e756f62 => Word::Bound,
        0x1646e756f626e75 => Word::Unbound,
        _ => Word::Other,
    }
}
