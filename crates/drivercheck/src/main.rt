// Prints the reports of the text on standard input, or `(refused NUMBER LINE)`; `(unread)` where the text cannot be read.
#![tactic(auto)]

// All of it to standard output; where that fails, one line on standard error says so.
fn print(rt: &(impl Print + Eprint), lines: &[u8]) {
    if rt.write_all(lines).is_err() {
        let _ = rt.eprintln("standard output cannot be written");
    }
}

fn print_list(rt: &(impl Print + Eprint), text: &[u8]) {
    let mut out = [0u8; program::REPORT];
    let n = program::print_to(text, &mut out);
    print(rt, &out[..n]);
}

// The buffer holds more than the longest text, so that one that is too long is seen to be.
fn main(rt: HostRuntime) {
    let mut text = [0u8; 65536];
    let mut reader = rt.stdin();
    match input::read_all(&mut reader, &mut text) {
        Ok(n) => print_list(&rt, &text[..n]),
        Err(_) => print(&rt, b"(unread)\n"),
    }
}
