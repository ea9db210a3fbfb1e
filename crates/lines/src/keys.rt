// The words of the text, each as one number: its letters in base 256, then its length in base 16. So 0x6164643 is `add`, a 61, d 64,
// d 64, of 3 letters.

pub const MODULE: u64 = 0x6d6f64756c656;

pub const KIND: u64 = 0x6b696e644;

pub const VAL: u64 = 0x76616c3;

pub const PORT: u64 = 0x706f72744;

pub const WIRE: u64 = 0x776972654;

pub const REG: u64 = 0x7265673;

pub const MEM: u64 = 0x6d656d3;

pub const CONST: u64 = 0x636f6e73745;

pub const DRIVE: u64 = 0x64726976655;

pub const ON: u64 = 0x6f6e2;

pub const INST: u64 = 0x696e73744;

pub const REPEAT: u64 = 0x7265706561746;

pub const CONSTIF: u64 = 0x636f6e737469667;

pub const LV: u64 = 0x6c762;

pub const SET: u64 = 0x7365743;

pub const DEFAULT: u64 = 0x64656661756c747;

pub const LOOP: u64 = 0x6c6f6f704;

pub const WHEN: u64 = 0x7768656e4;

pub const THEN: u64 = 0x7468656e4;

pub const ELSE: u64 = 0x656c73654;

pub const CONN: u64 = 0x636f6e6e4;

pub const N: u64 = 0x6e1;

pub const F: u64 = 0x661;

pub const IX: u64 = 0x69782;

pub const IF: u64 = 0x69662;

pub const ALL: u64 = 0x616c6c3;

pub const NEG: u64 = 0x6e65673;

pub const NOT: u64 = 0x6e6f743;

pub const CLOG2: u64 = 0x636c6f67325;

pub const ADD: u64 = 0x6164643;

pub const SUB: u64 = 0x7375623;

pub const MUL: u64 = 0x6d756c3;

pub const EQ: u64 = 0x65712;

pub const NE: u64 = 0x6e652;

pub const LT: u64 = 0x6c742;

pub const LE: u64 = 0x6c652;

pub const GT: u64 = 0x67742;

pub const GE: u64 = 0x67652;

pub const AND: u64 = 0x616e643;

pub const OR: u64 = 0x6f722;

pub const SHL: u64 = 0x73686c3;

pub const SHR: u64 = 0x7368723;

pub const BAND: u64 = 0x62616e644;

pub const BOR: u64 = 0x626f723;

pub const BXOR: u64 = 0x62786f724;

pub const BITS: u64 = 0x626974734;

pub const SIGNED: u64 = 0x7369676e65646;

pub const IN: u64 = 0x696e2;

pub const OUT: u64 = 0x6f75743;

pub const TRUE: u64 = 0x747275654;

pub const FALSE: u64 = 0x66616c73655;

pub const BIT: u64 = 0x6269743;

pub const OPAQUE: u64 = 0x6f70617175656;

pub const BOUND: u64 = 0x626f756e645;

pub const UNBOUND: u64 = 0x756e626f756e647;
