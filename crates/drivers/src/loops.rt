// Loop reports: a line for each closed walk that the search finds.
ghost use Rattle.std.specs.Prelude.{◌≡◌, List, [], ◌∷◌};
ghost use Rattle.spec.specs.Edge.{Head};
ghost use Rattle.spec.specs.FindCycles.{find_cycles};
ghost use Rattle.spec.specs.Check.{loop_reports};
ghost use Rattle.graph.specs.Table as table;
ghost use Rattle.graph.specs.Stands.{Stands};
ghost use Rattle.graph.specs.Cycles.{Roomy};
ghost use Rattle.report.specs.Line.{node_of};
ghost use Rattle.drivers.specs.Emits.{Appends, Emits};
ghost use Rattle.drivers.specs.Loops.{node_bytes, path_report};

use crate::emit;
use crate::emit::{Piece, Place};

// More reports than any search gives: one for each of 512 roots, and for each of 512 nodes one more than it has next nodes.
const REPORTS: u32 = 263168;

// A node as a report's line has it.
fn walk_node(n: graph::Node) -> report::Node
    ensures { node_of result ≡ table.node_of n }
{
    match n {
        graph::Node::Signal(a) => report::Node::Signal(a),
        graph::Node::Output(i, o) => report::Node::Output {
            inst: i,
            index: None,
            out: o,
        },
        graph::Node::OutputAt(i, x, o) => report::Node::Output {
            inst: i,
            index: Some(x),
            out: o,
        },
    }
}

// The node i of the graph.
fn emit_node(g: &[u32], i: u32, buf: &mut [u8], p: Place, write: bool) -> Place
    ensures { Appends write buf.old p (node_bytes (table.node_at g.now i)) 0 buf.new result }
{
    let n = walk_node(graph::node_of(g, i));
    emit::emit(buf, p, write, Piece::WalkNode(n))
}

// The report of the path from one place to before another, and its first node again.
fn report_loop(
    g: &[u32],
    w: &[u32],
    m: u32,
    from: u32,
    to: u32,
    buf: &mut [u8],
    p: Place,
    write: bool,
) -> Place
    ensures { Emits write buf.old p (path_report m g.now w.now from to ∷ []) buf.new result }
{
    let first = graph::path_node(w, from);
    let mut q = emit::emit(buf, p, write, Piece::WalkHead(m, graph::start_of(g, first)));
    for i in from..to {
        q = emit_node(g, graph::path_node(w, i), buf, q, write);
    }
    let r = emit_node(g, first, buf, q, write);
    emit::emit(buf, r, write, Piece::WalkTail)
}

// The reports of the graph's closed walks, in order.
pub(crate) fn report_loops(
    g: &[u32],
    w: &mut [u32],
    m: u32,
    buf: &mut [u8],
    p: Place,
    write: bool,
) -> Place
    ensures { (hs : List Head) → Stands g.now hs → Roomy w.old
        → Emits write buf.old p (loop_reports m hs (find_cycles hs)) buf.new result }
{
    graph::begin(g, w);
    let mut q = p;
    for turn in 0..REPORTS {
        match graph::next_cycle(g, w) {
            None => return q,
            Some(c) => {
                q = report_loop(g, w, m, c.from, c.to, buf, q, write);
            }
        }
    }
    q
}
