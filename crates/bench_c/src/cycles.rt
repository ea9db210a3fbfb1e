// One module's graph and its loop reports. `g` has 15,874 words or more, `w` 29,190 or more. A node is four numbers, as specs/Table.antt of
// `graph` has them: kind (0 a signal, 1 an output of an instance, 2 one with an index), name, index (2147483648 above its value), output.
ghost use Rattle.std.specs.Prelude.{◌≡◌, List, [], ℕ, ◌+◌, ◌≤◌, length, set, replicate};
ghost use Rattle.spec.specs.Edge.{Node as SpecNode, Head};
ghost use Rattle.spec.specs.FindCycles.{find_cycles};
ghost use Rattle.graph.specs.Table.{node_words, node_at, start_at};
ghost use Rattle.graph.specs.Stands.{Stands, Heading, Headed, Read};
ghost use Rattle.graph.specs.Cycles.{Roomy, Awaits};
ghost use Rattle.graph.specs.Leaves.{BeginLeaves};
ghost use Rattle.bench_c.specs.Cycles.{node_told, added_of, read_of, said, node_said, Copied, Taken, HeadTold, ReadTold, NextTold};

use graph::Node;

// The node that four numbers say.
fn node(kind: u32, name: u32, index: u32, output: u32) -> Node
    ensures { result ≡ node_told kind name index output }
{
    if kind == 0 {
        return Node::Signal(name);
    }
    if kind == 1 {
        return Node::Output(name, output);
    }
    Node::OutputAt(name, index, output)
}

// Makes `g` the graph of no heads: all its words are 0.
#[unsafe(no_mangle)]
pub extern "C" fn drivercheck_graph_clear(g: &mut [u32])
    ensures g_after { g.new ≡ replicate (length g.old) 0 }
    ensures stands { 15874 ≤ length g.old → Stands g.new [] }
{
    graph::clear(g)
}

// A line with this START heads the node: its number, or 512 where that is one node too many; then the graph is cleared.
#[unsafe(no_mangle)]
pub extern "C" fn drivercheck_graph_head(
    g: &mut [u32],
    kind: u32,
    name: u32,
    index: u32,
    output: u32,
    start: u32,
) -> u32
    ensures headed { (hs : List Head) → Stands g.old hs → Headed (added_of result) g.new hs (node_words kind name index output) start }
    ensures head_told { HeadTold result g.old (node_told kind name index output) start g.new }
{
    match graph::head(g, node(kind, name, index, output), start) {
        Ok(i) => {
            if i < 512 {
                return i;
            }
            // Only a slice that stands for no graph has more nodes.
            graph::clear(g);
            512
        }
        Err(_) => 512,
    }
}

// The node `from`, which the last line headed, reads the node: 1, or 0 where that is one node or edge too many; then the graph is cleared.
#[unsafe(no_mangle)]
pub extern "C" fn drivercheck_graph_read(
    g: &mut [u32],
    from: u32,
    kind: u32,
    name: u32,
    index: u32,
    output: u32,
) -> u32
    ensures read { (hs : List Head) (h : SpecNode) (start : ℕ) (rs : List SpecNode) → Heading g.old hs h start rs from
        → Read (read_of result) g.new hs h start rs from (node_words kind name index output) }
    ensures read_told { ReadTold result g.old from (node_told kind name index output) g.new }
{
    match graph::read(g, from, node(kind, name, index, output)) {
        Ok(_) => 1,
        Err(_) => 0,
    }
}

// The START of the node i.
#[unsafe(no_mangle)]
pub extern "C" fn drivercheck_graph_start(g: &[u32], i: u32) -> u32
    ensures { result ≡ start_at g.now i }
{
    graph::start_of(g, i)
}

// Stores a number at k, nothing past the end.
fn put(nodes: &mut [u32], k: u32, v: u32)
    ensures { nodes.new ≡ set nodes.old k v }
{
    let i = k as usize;
    if i < nodes.len() {
        nodes[i] = v;
    }
}

// Stores four numbers.
fn say(words: &mut [u32], kind: u32, name: u32, index: u32, output: u32)
    ensures { words.new ≡ said words.old kind name index output }
{
    put(words, 0, kind);
    put(words, 1, name);
    put(words, 2, index);
    put(words, 3, output);
}

// Stores the four numbers of the node i.
#[unsafe(no_mangle)]
pub extern "C" fn drivercheck_graph_node(g: &[u32], i: u32, words: &mut [u32])
    ensures { words.new ≡ node_said words.old (node_at g.now i) }
{
    match graph::node_of(g, i) {
        Node::Signal(n) => say(words, 0, n, 0, 0),
        Node::Output(n, o) => say(words, 1, n, 0, o),
        Node::OutputAt(n, x, o) => say(words, 2, n, x, o),
    }
}

// Prepares `w` for the loop reports of the graph.
#[unsafe(no_mangle)]
pub extern "C" fn drivercheck_graph_begin(g: &[u32], w: &mut [u32])
    ensures awaits { (hs : List Head) → Stands g.now hs → Roomy w.old → Awaits g.now w.new (find_cycles hs) }
    ensures begin_leaves { BeginLeaves g.now w.old w.new }
{
    graph::begin(g, w)
}

// Copies the n nodes from the place p of the path on, and the first of them again: how many.
fn copy(w: &[u32], nodes: &mut [u32], p: u32, n: u32) -> usize
    requires { p + n ≤ 4294967295 }
    ensures { Copied w.now p n nodes.old nodes.new result }
{
    for k in 0..n {
        put(nodes, k, graph::path_node(w, p + k));
    }
    put(nodes, n, graph::path_node(w, p));
    n as usize + 1
}

// The next loop report: how many nodes it has, the first again at its end, or 0 for no more. `nodes` has their numbers, as many as it has
// room for.
#[unsafe(no_mangle)]
pub extern "C" fn drivercheck_graph_next(g: &[u32], w: &mut [u32], nodes: &mut [u32]) -> usize
    ensures taken { (rs : List (List SpecNode)) → Awaits g.now w.old rs
        → Taken result g.now w.new nodes.new rs }
    ensures next_told { NextTold result g.now w.old w.new nodes.old nodes.new }
{
    match graph::next_cycle(g, w) {
        None => 0,
        Some(c) => {
            if c.to <= c.from {
                return 0;
            }
            copy(w, nodes, c.from, c.to - c.from)
        }
    }
}
