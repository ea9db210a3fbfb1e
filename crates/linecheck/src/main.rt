// Is a text well formed? Prints nothing where it is, and else `(refused NUMBER LINE)`; `(unread)` where the text cannot be read.
#![tactic(auto)]

use std::io;

// Longer than any such line: 10 digits for each number.
fn print_refused(rt: &impl Print, number: u32, line: u32) -> io::Result<()> {
    let mut out = [0u8; 40];
    if let Some(n) = report::put_refused(&mut out, 0, number, line) {
        rt.write_all(&out[..n.min(40)])?;
    }
    Ok(())
}

fn print_verdict(rt: &impl Print, text: &[u8]) -> io::Result<()> {
    match lines::reader::read(text) {
        Err(r) => print_refused(rt, u32::from(r.fault), r.line),
        Ok(_) => Ok(()),
    }
}

// The buffer holds more than the longest text, so that one that is too long is seen to be.
fn main(rt: HostRuntime) -> io::Result<()> {
    let mut text = [0u8; 65536];
    let mut reader = rt.stdin();
    match input::read_all(&mut reader, &mut text) {
        Ok(n) => print_verdict(&rt, &text[..n]),
        Err(_) => rt.write_all(b"(unread)\n"),
    }
}
