// Report lines at the next place of a lent buffer. They are counted first, with nothing written, and then written: the place goes on
// past the buffer's end, by one.
ghost use Rattle.std.specs.Prelude.{◌≡◌, ◌+◌, ◌≤◌, min, length};
ghost use Rattle.report.specs.Line.{placed};
ghost use Rattle.drivers.specs.Emits.{bytes_of, lines_in, Appends};

use report::{Node, Report};

// Where the next line goes, one past the buffer's end where they no longer fit; and how many reports there are so far.
#[derive(Clone, Copy)]
pub(crate) struct Place {
    pub(crate) at: usize,
    pub(crate) reports: usize,
}

// What is appended: a report's line; or of a loop report's line its head, a node, or its end, with which the report counts.
#[derive(Clone, Copy)]
pub(crate) enum Piece {
    Line(Report),
    WalkHead(u32, u32),
    WalkNode(Node),
    WalkTail,
}

// The place behind n bytes.
fn behind(buf: &[u8], at: usize, n: usize) -> usize
    ensures { result ≡ min (at + n) (length buf.now + 1) }
{
    if buf.len() < at {
        return buf.len() + 1;
    }
    if buf.len() - at < n {
        return buf.len() + 1;
    }
    at + n
}

// So many reports more; there are never more reports than bytes.
fn more(reports: usize, k: usize, at: usize) -> usize
    ensures value { reports + k ≤ at → result ≡ reports + k }
    ensures upper_bound { reports ≤ at → result ≤ at }
{
    if at < reports {
        return reports;
    }
    if at - reports < k {
        return at;
    }
    reports + k
}

// How many bytes a piece has.
#[inline(always)]
fn count(x: Piece) -> usize
    ensures { result ≡ length (bytes_of x) }
{
    match x {
        Piece::Line(r) => report::count_report(r),
        Piece::WalkHead(m, start) => report::count_walk_head(m, start),
        Piece::WalkNode(n) => report::count_walk_node(n),
        Piece::WalkTail => report::count_walk_tail(),
    }
}

// How many reports count with a piece.
fn ended(x: Piece) -> usize
    ensures { result ≡ lines_in x }
{
    match x {
        Piece::Line(_) => 1,
        Piece::WalkHead(_, _) => 0,
        Piece::WalkNode(_) => 0,
        Piece::WalkTail => 1,
    }
}

// Writes a piece at a place of the buffer, where it fits.
#[inline(always)]
fn put(buf: &mut [u8], at: usize, x: Piece)
    ensures { buf.new ≡ (placed buf.old at (bytes_of x)).buffer }
{
    match x {
        Piece::Line(r) => report::put_report(buf, at, r),
        Piece::WalkHead(m, start) => report::put_walk_head(buf, at, m, start),
        Piece::WalkNode(n) => report::put_walk_node(buf, at, n),
        Piece::WalkTail => report::put_walk_tail(buf, at),
    };
}

// A piece at the place p. Inlined, with what it calls, since each caller has one kind of piece: its arms are then chosen when the code is compiled.
#[inline(always)]
pub(crate) fn emit(buf: &mut [u8], p: Place, write: bool, x: Piece) -> Place
    ensures { Appends write buf.old p (bytes_of x) (lines_in x) buf.new result }
{
    let at = behind(buf, p.at, count(x));
    let reports = more(p.reports, ended(x), at);
    if write {
        put(buf, p.at, x);
    }
    Place { at, reports }
}
