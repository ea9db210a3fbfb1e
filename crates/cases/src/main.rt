// Runs the cases of the files that are named: holds what is printed for each text to the stored answer. Prints what differs, and last how
// many cases there were and how many differ.
#![tactic(auto)]

mod record;
mod run;

ghost use Rattle.std.specs.Prelude.{◌≡◌, ◌≤◌, length, IfOk};

use run::Tally;
use std::io::Read;
use std::rt::Files;
use std::{env, fs, io};

// More than the largest file has.
const FILE: usize = 1048576;

// A file that cannot be run counts as one difference.
fn unread() -> Tally {
    Tally {
        cases: 0,
        different: 1,
    }
}

fn buffer() -> [u8; FILE]
    ensures { 1048576 ≡ length result }
{
    [0; FILE]
}

// Reads until the buffer is full or the file ends: how many bytes it has.
fn read_whole<R: Read>(file: &mut R, bytes: &mut [u8]) -> io::Result<usize>
    ensures { IfOk result (λ n. n ≤ length bytes.new) }
{
    let mut done: usize = 0;
    while done < bytes.len() {
        let n = file.read(&mut bytes[done..])?;
        if n == 0 {
            return Ok(done);
        }
        done += n.min(bytes.len() - done);
    }
    Ok(done)
}

fn run_open<R: Read>(rt: &impl Print, file: &mut R) -> io::Result<Tally> {
    let mut bytes = buffer();
    let n = read_whole(file, &mut bytes)?;
    if n == FILE {
        let _ = rt.println("too long");
        return Ok(unread());
    }
    Ok(run::run(rt, &bytes[..n]))
}

// The file of that name.
fn run_file(rt: &(impl Files + Print + Eprint), path: &str) -> io::Result<Tally> {
    match fs::open(rt, path) {
        Ok(mut file) => run_open(rt, &mut file),
        Err(e) => {
            let _ = eprintln!(rt; "{path}: {e}");
            Ok(unread())
        }
    }
}

fn plus(a: u64, b: usize) -> u64 {
    if a < u64::MAX - b as u64 {
        a + b as u64
    } else {
        u64::MAX
    }
}

fn print_counts(rt: &impl Print, cases: u64, different: u64) -> io::Result<()> {
    println!(rt; "{cases} cases, {different} different")
}

fn main(rt: HostRuntime) -> io::Result<()> {
    let mut cases: u64 = 0;
    let mut different: u64 = 0;
    for path in env::args(&rt)?.skip(1) {
        let t = run_file(&rt, path.as_str())?;
        cases = plus(cases, t.cases);
        different = plus(different, t.different);
    }
    print_counts(&rt, cases, different)
}
