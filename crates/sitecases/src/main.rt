// The cases P3 to P7 through the code: sites are stored as the drives of the case's output, then its conflict and its coverage are
// reported. Prints each case's name and the lines of its reports.
#![tactic(auto)]

use report::{Detail, Report};
use sites::{Cover, Extent, Site};
use std::io;

// The output's name and the START of its line, the same in all of these cases.
const NAME: u32 = 2;

const LINE: u32 = 10;

// A value v of a constant is held as v + 2147483648.
const ZERO: u32 = 2147483648;

fn print_report(rt: &impl Print, start: u32, name: u32, detail: Detail) -> io::Result<()> {
    let mut out = [0u8; 60];
    let x = Report {
        number: 0,
        start,
        name,
        detail,
    };
    if let Some(n) = report::put_report(&mut out, 0, x) {
        rt.write_all(&out[..n.min(60)])?;
    }
    Ok(())
}

fn drive(own: &mut [u32], extent: Extent, start: u32) {
    let s = Site {
        name: NAME,
        extent,
        start,
    };
    let _ = sites::add_site(own, s);
}

// The conflicts, in order.
fn print_conflicts(rt: &impl Print, own: &[u32]) -> io::Result<()> {
    for i in 0..sites::conflict_count(own) {
        let c = sites::conflict_at(own, i);
        print_report(rt, c.start, c.name, Detail::Many)?;
    }
    Ok(())
}

fn print_coverage(
    rt: &impl Print,
    own: &[u32],
    name: u32,
    start: u32,
    width: u32,
) -> io::Result<()> {
    match sites::cover_of(own, name) {
        Cover::Never => print_report(rt, start, name, Detail::Never),
        Cover::Open => Ok(()),
        Cover::Ranges => match sites::first_gap(own, name, width) {
            Some(b) => print_report(rt, start, name, Detail::Gap(b)),
            None => Ok(()),
        },
    }
}

fn print_reports(rt: &impl Print, own: &mut [u32], width: u32) -> io::Result<()> {
    sites::find_conflicts(own);
    print_conflicts(rt, own)?;
    let o = sites::output_at(own, 0);
    if sites::poisoned(own, o.name) {
        return Ok(());
    }
    print_coverage(rt, own, o.name, o.start, width)
}

fn begin(rt: &impl Print, own: &mut [u32], name: &[u8]) -> io::Result<()> {
    rt.write_all(name)?;
    sites::clear(own);
    sites::add_output(own, NAME, LINE, 0, 0);
    Ok(())
}

// The bits from high to low, both known.
fn bits(high: u16, low: u16) -> Extent {
    sites::range_extent(true, Some(ZERO + high as u32), Some(ZERO + low as u32))
}

fn main(rt: HostRuntime) -> io::Result<()> {
    let mut own = [0u32; sites::OWN];
    begin(&rt, &mut own, b"P3\n")?;
    drive(&mut own, bits(3, 0), 20);
    drive(&mut own, bits(5, 3), 30);
    print_reports(&rt, &mut own, 6)?;
    begin(&rt, &mut own, b"P4\n")?;
    drive(&mut own, bits(3, 0), 20);
    drive(&mut own, bits(5, 4), 30);
    print_reports(&rt, &mut own, 6)?;
    begin(&rt, &mut own, b"P5\n")?;
    drive(&mut own, sites::bit_extent(false, None), 20);
    drive(&mut own, Extent::Whole, 30);
    print_reports(&rt, &mut own, 6)?;
    begin(&rt, &mut own, b"P6\n")?;
    drive(&mut own, bits(4094, 0), 20);
    print_reports(&rt, &mut own, 4097)?;
    begin(&rt, &mut own, b"P7\n")?;
    drive(&mut own, bits(4095, 0), 20);
    print_reports(&rt, &mut own, 5000)
}
