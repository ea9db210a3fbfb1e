// What the program prints for a text: its reports, or `(refused NUMBER LINE)`.
#![tactic(auto)]

ghost use Rattle.std.specs.Prelude.{◌≡◌, ◌≤◌, length, take, drop};
ghost use Rattle.spec.specs.Cases.{Prints};
ghost use Rattle.report.specs.Line.{refused_line};

use drivers::check;
use lines::tables;
use steps::modules;

// The program's report buffer.
pub const REPORT: usize = 65536;

// A graph, and hints.
const HINTED: usize = graph::GRAPH + 1024;

// A refusal at the front of the buffer: how many bytes it has; the others stay.
fn put_refused(number: u32, line: u32, out: &mut [u8; REPORT]) -> usize
    ensures out_after { take result out.new ≡ refused_line number line }
    ensures prefix_len { (result ≤ length out.new) × (result ≡ length (take result out.new)) }
    ensures out_unchanged { drop result out.new ≡ drop result out.old }
{
    let n = report::count_refused(number, line);
    report::put_refused(out, 0, number, line);
    n
}

// What is printed, at the front of the buffer: how many bytes it has; the others stay. The working slices have the places that the limits ask
// for, and the graph 1,024 more, for hints.
pub fn print_to(text: &[u8], out: &mut [u8; REPORT]) -> usize
    ensures prints { Prints text.now (take result out.new) }
    ensures prefix_len { (result ≤ length out.new) × (result ≡ length (take result out.new)) }
    ensures out_unchanged { drop result out.new ≡ drop result out.old }
{
    let mut kinds = [0u8; tables::KINDS];
    let mut mods = [0u32; tables::MODS];
    let mut names = [0u32; modules::NAMES];
    let mut own = [0u32; sites::OWN];
    let mut g = [0u32; HINTED];
    let mut w = [0u32; graph::WORK];
    let mut k = [0u32; summary::KEPT];
    let answer = check::check_drivers(
        text, out, &mut kinds, &mut mods, &mut names, &mut own, &mut g, &mut w, &mut k,
    );
    if answer.number == 0 {
        return answer.bytes;
    }
    put_refused(answer.number, answer.line, out)
}
