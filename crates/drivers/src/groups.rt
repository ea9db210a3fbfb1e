// The reports of a module's own tables, table by table: misuses, conflicts, outputs, registers, memories, loops.
ghost use Rattle.std.specs.Prelude.{◌≡◌, List, [], ◌∷◌, ◌-◌, ◌<◌, ◌≤◌, length, take, drop};
ghost use Rattle.spec.specs.Syntax.{Width};
ghost use Rattle.spec.specs.Show.{show_width};
ghost use Rattle.spec.specs.Decode.{depth_limit};
ghost use Rattle.spec.specs.Refusal.{width_depth};
ghost use Rattle.spec.specs.Value.{known};
ghost use Rattle.spec.specs.Site.{Output, sites_of, width_value, width_coverage};
ghost use Rattle.spec.specs.Edge.{Head};
ghost use Rattle.spec.specs.Report.{report, misused};
ghost use Rattle.spec.specs.Check.{misuse_reports, conflict_reports, coverage_report, output_reports, widths_out, storage_reports};
ghost use Rattle.report.specs.Line.{detail_of};
ghost use Rattle.consteval.specs.Worth.{signed, worth, names_of};
ghost use Rattle.graph.specs.Stands.{Stands};
ghost use Rattle.graph.specs.Cycles.{Roomy};
ghost use Rattle.sites.specs.Own.{places, own_of, misuse_of, poisoned_names, port_of, rows_in, row, names, storage_of, storage_from};
ghost use Rattle.walk.specs.Walk.{Own, poison, own_reports};
ghost use Rattle.items.specs.Held.{PortIs, Ports, Held};
ghost use Rattle.drivers.specs.Emits.{Emits};
ghost use Rattle.drivers.specs.Groups.{Reported, said_by, report_by, table_by, stored_by};

use crate::emit::{Piece, Place};
use crate::{emit, loops};
use consteval::{Outside, Value, arith};
use lines::bytes::is_open;
use lines::parts;
use report::{Detail, Report};
use sites::{Blocks, Cover, Line, Misuse, OutputLine};

// What is reported of a module, number m: the text, the names and values of its widths, and its own tables.
#[derive(Clone, Copy)]
struct Tables<'a> {
    text: &'a [u8],
    names: &'a [u32],
    used: usize,
    own: &'a [u32],
    m: u32,
}

// What a module stores.
#[derive(Clone, Copy, Debug, PartialEq, Eq)]
enum Storage {
    Reg,
    Mem,
}

// The detail of a report on a misuse.
fn misuse_detail(k: Misuse) -> Detail
    ensures { detail_of result ≡ misused (misuse_of k) }
{
    match k {
        Misuse::Wire => Detail::Wire,
        Misuse::Reg => Detail::Reg,
        Misuse::Mem => Detail::Mem,
        Misuse::Arrow => Detail::Arrow,
    }
}

// One report, of a name.
fn say(
    buf: &mut [u8],
    p: Place,
    write: bool,
    m: u32,
    start: u32,
    name: u32,
    detail: Detail,
) -> Place
    ensures { Emits write buf.old p (report m start name (detail_of detail) ∷ []) buf.new result }
{
    let x = Report {
        number: m,
        start,
        name,
        detail,
    };
    emit::emit(buf, p, write, Piece::Line(x))
}

// The misuses, in the order in which they were collected.
fn report_misuses(t: &Tables, buf: &mut [u8], p: Place, write: bool) -> Place
    ensures { length t.now.own.now ≡ places
        → Emits write buf.old p (misuse_reports t.now.m (own_of t.now.own.now).misuses) buf.new result }
{
    let n = sites::misuse_count(t.own);
    let mut q = p;
    for i in 0..n {
        let x = sites::misuse_at(t.own, i);
        let kind = x.kind;
        let detail = misuse_detail(kind);
        q = say(buf, q, write, t.m, x.start, x.name, detail);
    }
    q
}

// The conflicts that stand in their table, by START and then by name.
fn report_conflicts(t: &Tables, buf: &mut [u8], p: Place, write: bool) -> Place
    ensures { length t.now.own.now ≡ places
        → Emits write buf.old p (conflict_reports t.now.m (own_of t.now.own.now).conflicts) buf.new result }
{
    let n = sites::conflict_count(t.own);
    let mut q = p;
    for i in 0..n {
        let x = sites::conflict_at(t.own, i);
        q = say(buf, q, write, t.m, x.start, x.name, Detail::Many);
    }
    q
}

// The value of the width that the bytes t show: `bit` is 1, `opaque` has none.
fn width_of(t: &[u8], names: &[u32], used: usize) -> Value
    ensures { (x : Width) → t.now ≡ show_width x → width_depth x ≤ depth_limit → worth result ≡ width_value (names_of names.now used) x }
{
    let c = parts::byte(t, 0);
    if c == b'b' {
        return arith::truth(true);
    }
    if !is_open(c) {
        return Ok(None);
    }
    let h = parts::part_end(t, 1);
    if !parts::more(t, h) {
        return Ok(None);
    }
    let e = parts::part_end(t, h + 1);
    consteval::eval(parts::between(t, h, e), 31, names, used)
}

// The value of the width at from..to of the text.
fn width_at(t: &Tables, from: usize, to: usize) -> Value
    ensures { (x : Width) → from ≤ to → to ≤ length t.now.text.now → take (to - from) (drop from t.now.text.now) ≡ show_width x
        → width_depth x ≤ depth_limit → worth result ≡ width_value (names_of t.now.names.now t.now.used) x }
{
    if to < from {
        return Ok(None);
    }
    if t.text.len() < to {
        return Ok(None);
    }
    width_of(&t.text[from..to], t.names, t.used)
}

// The first gap of an output whose width v is held as v + 2147483648.
fn report_gap(
    t: &Tables,
    v: u32,
    start: u32,
    name: u32,
    buf: &mut [u8],
    p: Place,
    write: bool,
) -> Place
    ensures { length t.now.own.now ≡ places → (o : Output) → o.name ≡ name → o.start ≡ start
        → Emits write buf.old p (coverage_report t.now.m o (width_coverage (sites_of name (own_of t.now.own.now).sites) (known (signed v))))
        buf.new result }
{
    if v < 2147483648 {
        return p;
    }
    match sites::first_gap(t.own, name, v - 2147483648) {
        Some(b) => say(buf, p, write, t.m, start, name, Detail::Gap(b)),
        None => p,
    }
}

// What is said of an output: one that is not poisoned has a site, and where all are ranges no gap.
fn report_output(
    t: &Tables,
    x: OutputLine,
    buf: &mut [u8],
    p: Place,
    write: bool,
) -> Result<Place, Outside>
    ensures { length t.now.own.now ≡ places → (o : Output) → PortIs t.now.text.now (port_of x) o
        → Reported result write buf.old p
        (widths_out (names_of t.now.names.now t.now.used) (poisoned_names (own_of t.now.own.now)) (own_of t.now.own.now).sites (o ∷ []))
        (output_reports t.now.m (names_of t.now.names.now t.now.used) (poisoned_names (own_of t.now.own.now)) (own_of t.now.own.now).sites (o ∷ []))
        buf.new }
{
    let name = x.name;
    let start = x.start;
    if sites::poisoned(t.own, name) {
        return Ok(p);
    }
    match sites::cover_of(t.own, name) {
        Cover::Never => Ok(say(buf, p, write, t.m, start, name, Detail::Never)),
        Cover::Open => Ok(p),
        Cover::Ranges => match width_at(t, x.from as usize, x.to as usize)? {
            Some(v) => Ok(report_gap(t, v, start, name, buf, p, write)),
            None => Ok(p),
        },
    }
}

// The outputs, in the order of their first lines; the conflicts stand in their table.
fn report_coverage(t: &Tables, buf: &mut [u8], p: Place, write: bool) -> Result<Place, Outside>
    ensures { length t.now.own.now ≡ places → (os : List Output) → Ports t.now.text.now (own_of t.now.own.now).outputs os
        → Reported result write buf.old p
        (widths_out (names_of t.now.names.now t.now.used) (poisoned_names (own_of t.now.own.now)) (own_of t.now.own.now).sites os)
        (output_reports t.now.m (names_of t.now.names.now t.now.used) (poisoned_names (own_of t.now.own.now)) (own_of t.now.own.now).sites os)
        buf.new }
{
    let n = sites::output_count(t.own);
    let mut q = p;
    for i in 0..n {
        let x = sites::output_at(t.own, i);
        q = report_output(t, x, buf, q, write)?;
    }
    Ok(q)
}

// What is said of a register or a memory with these blocks: a register has one, a memory at most one.
fn blocks_detail(kind: Storage, b: Blocks) -> Option<Detail>
    ensures { result ≡ said_by kind b }
{
    match b {
        Blocks::None => match kind {
            Storage::Reg => Some(Detail::NoBlock),
            Storage::Mem => None,
        },
        Blocks::One => None,
        Blocks::Several => match kind {
            Storage::Reg => Some(Detail::Blocks),
            Storage::Mem => Some(Detail::MemBlocks),
        },
    }
}

// What is said of a register or a memory, if it is not poisoned.
fn report_storage(
    kind: Storage,
    t: &Tables,
    x: Line,
    buf: &mut [u8],
    p: Place,
    write: bool,
) -> Place
    ensures { length t.now.own.now ≡ places
        → Emits write buf.old p (storage_reports (report_by kind t.now.m) (poisoned_names (own_of t.now.own.now)) (own_of t.now.own.now).pairs
        (storage_of x ∷ [])) buf.new result }
{
    if sites::poisoned(t.own, x.name) {
        return p;
    }
    match blocks_detail(kind, sites::blocks_of(t.own, x.name)) {
        Some(detail) => say(buf, p, write, t.m, x.start, x.name, detail),
        None => p,
    }
}

// How many registers or memories there are.
fn storage_count(kind: Storage, own: &[u32]) -> usize
    ensures value { length own.now ≡ places → result ≡ rows_in (table_by kind) own.now }
    ensures upper_bound { result ≤ names }
{
    match kind {
        Storage::Reg => sites::reg_count(own),
        Storage::Mem => sites::mem_count(own),
    }
}

// The register or the memory in row i.
fn storage_at(kind: Storage, own: &[u32], i: usize) -> Line
    ensures { length own.now ≡ places → i < names → storage_of result ≡ storage_from (row (table_by kind) own.now i) }
{
    match kind {
        Storage::Reg => sites::reg_at(own, i),
        Storage::Mem => sites::mem_at(own, i),
    }
}

// The registers or the memories, in the order of their first lines.
fn report_blocks(kind: Storage, t: &Tables, buf: &mut [u8], p: Place, write: bool) -> Place
    ensures { length t.now.own.now ≡ places
        → Emits write buf.old p (storage_reports (report_by kind t.now.m) (poisoned_names (own_of t.now.own.now)) (own_of t.now.own.now).pairs
        (stored_by kind (own_of t.now.own.now))) buf.new result }
{
    let n = storage_count(kind, t.own);
    let mut q = p;
    for i in 0..n {
        let x = storage_at(kind, t.own, i);
        q = report_storage(kind, t, x, buf, q, write);
    }
    q
}

// All reports of a module, from its own tables and its graph, in order: misuses, conflicts, outputs, registers, memories, loops.
pub(crate) fn report_module(
    text: &[u8],
    names: &[u32],
    used: usize,
    own: &mut [u32],
    g: &[u32],
    w: &mut [u32],
    m: u32,
    buf: &mut [u8],
    p: Place,
    write: bool,
) -> Result<Place, Outside>
    ensures reported { (o : Own) (hs : List Head) → Held text.now own.old o → Stands g.now hs → Roomy w.old
        → Reported result write buf.old p (widths_out (names_of names.now used) (poison o) o.sites o.outputs)
        (own_reports m (names_of names.now used) o hs) buf.new }
    ensures held { (o : Own) → Held text.now own.old o → Held text.now own.new o }
{
    sites::find_conflicts(own);
    let t = Tables {
        text,
        names,
        used,
        own,
        m,
    };
    let a = report_misuses(&t, buf, p, write);
    let b = report_conflicts(&t, buf, a, write);
    let c = report_coverage(&t, buf, b, write)?;
    let d = report_blocks(Storage::Reg, &t, buf, c, write);
    let e = report_blocks(Storage::Mem, &t, buf, d, write);
    Ok(loops::report_loops(g, w, m, buf, e, write))
}
