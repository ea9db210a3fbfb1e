// Standard input as a whole, from any reader. A read that fails is told from the end of the input, so that no part of a text
// is taken for all of it. No contract can say what is read: these say what an answer means and how much of the buffer it takes.
#![tactic(auto)]

ghost use Rattle.std.specs.Prelude.{◌≡◌, length};
ghost use Rattle.input.specs.Input.{Within, answer};

use std::io;
use std::io::Read;

// What a read into the buffer answered: so many bytes, no more than it has places; or the read failed.
fn answered(got: io::Result<usize>, buf: &[u8]) -> io::Result<usize>
    ensures value { result ≡ answer got (length buf.now) }
    ensures within { Within result buf.now }
{
    let n = got?;
    Ok(n.min(buf.len()))
}

// One read: 0 bytes at the end of the input, and where the buffer has no place.
fn read_some<R: Read>(reader: &mut R, buf: &mut [u8]) -> io::Result<usize>
    ensures within { Within result buf.new }
    ensures buf_len_unchanged { length buf.new ≡ length buf.old }
{
    let got = reader.read(buf);
    answered(got, buf)
}

// Reads until the buffer is full or the input ends.
fn fill<R: Read>(reader: &mut R, buf: &mut [u8]) -> io::Result<usize>
    ensures within { Within result buf.new }
    ensures buf_len_unchanged { length buf.new ≡ length buf.old }
{
    let mut done: usize = 0;
    while done < buf.len() {
        let n = read_some(reader, &mut buf[done..])?;
        if n == 0 {
            return Ok(done);
        }
        done += n;
    }
    Ok(done)
}

// Reads what is left and keeps none of it. By fewer than 2^64 reads, since a loop without an end has no proof.
fn drain<R: Read>(reader: &mut R) -> io::Result<()> {
    let mut rest = [0u8; 4096];
    for _ in 0..u64::MAX {
        if read_some(reader, &mut rest)? == 0 {
            return Ok(());
        }
    }
    Err(io::Error::other("the input has no end"))
}

// Reads standard input to its end, so that whoever writes it is not cut off, and keeps what the buffer holds of it: how many bytes stand
// at its front.
pub fn read_all<R: Read>(reader: &mut R, buf: &mut [u8]) -> io::Result<usize>
    ensures within { Within result buf.new }
    ensures buf_len_unchanged { length buf.new ≡ length buf.old }
{
    let n = fill(reader, buf)?;
    if n == buf.len() {
        drain(reader)?;
    }
    Ok(n)
}
