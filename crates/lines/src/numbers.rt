// Decimal numbers, at any number of digits.
ghost use Rattle.std.specs.Prelude.{◌≡◌, ◌-◌, min};
ghost use Rattle.spec.specs.Bytes.{number};

// What is below '0' counts as 0; `value` equals `number` for all bytes, 4,294,967,296 at most.
fn digit(c: u8) -> u64
    ensures { result ≡ c - 48 }
{
    if c < b'0' { 0 } else { (c - b'0') as u64 }
}

// What the bytes are as a number, digits or not: all that is no u32 gives the first number above.
pub fn value(s: &[u8]) -> u64
    ensures { result ≡ min (number s.now) 4294967296 }
{
    let mut a: u64 = 0;
    for &c in s {
        a = a * 10 + digit(c);
        if 4294967296 <= a {
            return 4294967296;
        }
    }
    a
}
