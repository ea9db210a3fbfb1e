// What an expression reads, and what a line heads: into the graph of a module.
#![tactic(auto)]

ghost use Rattle.std.specs.Prelude.{◌≡◌, ◌+◌, ◌-◌, length, drop, get_or, eqb, ◌&&◌, is_ok};
ghost use Rattle.std.proofs.Math.Option.{none};
ghost use Rattle.spec.specs.Decode.{decode_expr};
ghost use Rattle.spec.specs.Value.{value};
ghost use Rattle.spec.specs.Edge.{inst_out, name_reads, indexed_reads, reaches, index_of, has_output};
ghost use Rattle.graph.specs.Table.{node_of};
ghost use Rattle.consteval.specs.Worth.{names_of, worth};
ghost use Rattle.edges.specs.Reads.{kind_word};
ghost use Rattle.edges.specs.Shows.{opens, name_of, indexed_name, inst_by, NameRead, NodesRead, FieldRead, ExprRead, PartsRead, one_read};
ghost use Rattle.edges.specs.Lines.{WireHeads, DriveHeads, summary_in, names_in, end_behind, number_at, inst_index, inst_module, ConnRead, ConnsRead, OutputHead, InstHeads};
ghost use Rattle.edges.specs.Total.{field_by, field_read, expr_read, parts_read, conn_read, conns_read, inst_reads};
ghost use Rattle.edges.specs.Leaves.{ReadsOrCleared, WireLeaves, DriveLeaves, OutputLeaves, InstLeaves};

use consteval::{Outside, Value};
use graph::{Full, Node};
use lines::bytes::{is_minus, is_open, is_space};
use lines::kinds::{Kind, kind_at};
use lines::{numbers, parts};

// A limit is passed, or a constant is outside INT: the text is refused by the number 20.
#[derive(Clone, Copy, Debug, PartialEq, Eq)]
pub struct Stop;

impl From<Full> for Stop {
    ghost from_gives = { λ _ e. e ≡ record {} };

    fn from(_: Full) -> Stop {
        Stop
    }
}

impl From<Outside> for Stop {
    ghost from_gives = { λ _ e. e ≡ record {} };

    fn from(_: Outside) -> Stop {
        Stop
    }
}

// What a line of a module is read by: the kinds of the module's names, and the table of names that have a value, of which `used` are in use.
#[derive(Clone, Copy)]
pub struct Scope<'a> {
    pub kinds: &'a [u8],
    pub names: &'a [u32],
    pub used: usize,
}

// The pairs of output and input of a summary: `count` of them in `words` from `first` on.
#[derive(Clone, Copy)]
pub struct Pairs<'a> {
    pub words: &'a [u32],
    pub first: usize,
    pub count: usize,
}

// The node `from`, which the last line headed, reads the name n, by its kind. Where a limit is passed the graph is cleared.
fn name_read(kinds: &[u8], n: u32, g: &mut [u32], from: u32) -> Result<(), Stop>
    ensures name_read { NameRead (is_ok result) n kinds.now g.old g.new from }
    ensures reads_or_cleared { ReadsOrCleared (is_ok result) (name_reads (kind_word (get_or kinds.now n 0)) n) from g.old g.new }
{
    let Some(kind) = kind_at(kinds, n as usize) else {
        return Ok(());
    };
    match kind {
        Kind::In | Kind::Out | Kind::Wire => {
            graph::read(g, from, Node::Signal(n))?;
            Ok(())
        }
        Kind::Reg | Kind::Mem | Kind::Inst => Ok(()),
    }
}

// Does x begin with a bracket and then the letter a?
fn opens(x: &[u8], a: u8) -> bool
    ensures { result ≡ opens x.now a }
{
    if !is_open(parts::byte(x, 0)) {
        return false;
    }
    parts::byte(x, 1) == a
}

// The name that the expression x is, if it is one. By the first bytes of a form.
fn name_of(x: &[u8]) -> Option<u32>
    ensures { result ≡ name_of x.now }
{
    if !opens(x, b'n') {
        return None;
    }
    if !is_space(parts::byte(x, 2)) {
        return None;
    }
    let a = parts::part_end(x, 3);
    let v = numbers::value(parts::between(x, 2, a));
    if 4294967295 < v {
        return None;
    }
    Some(v as u32)
}

// The name that the expression x is an index of, if it is one of a name. By the first bytes of a form.
#[tactic(auto, using(crate::proofs::FieldLaws::no_form, crate::proofs::FieldLaws::no_x, crate::proofs::FieldLaws::index_here))]
fn indexed_name(x: &[u8]) -> Option<u32>
    ensures { result ≡ indexed_name x.now }
{
    if !opens(x, b'i') {
        return None;
    }
    if parts::byte(x, 2) != b'x' {
        return None;
    }
    let a = parts::part_end(x, 4);
    name_of(parts::between(x, 3, a))
}

// Is the name i an inst?
fn is_inst(kinds: &[u8], i: u32) -> bool
    ensures { result ≡ inst_by kinds.now i }
{
    kind_at(kinds, i as usize) == Some(Kind::Inst)
}

// What an `f` is of: an inst, an inst with an index, or anything else.
#[derive(Clone, Copy)]
enum FieldOf {
    Inst(u32),
    InstAt(u32),
    Other,
}

// What an `f` of the expression x is of.
fn field_of(x: &[u8], kinds: &[u8]) -> FieldOf
    ensures { result ≡ field_by kinds.now x.now }
{
    match name_of(x) {
        Some(i) => {
            if is_inst(kinds, i) {
                return FieldOf::Inst(i);
            }
            FieldOf::Other
        }
        None => match indexed_name(x) {
            Some(i) => {
                if is_inst(kinds, i) {
                    return FieldOf::InstAt(i);
                }
                FieldOf::Other
            }
            None => FieldOf::Other,
        },
    }
}

// The node `from` reads the output p of the instance i. At a limit the graph is cleared.
fn output_read(i: u32, p: u32, g: &mut [u32], from: u32) -> Result<(), Stop>
    ensures nodes_read { NodesRead (is_ok result) (one_read (inst_out i none p)) g.old g.new from }
    ensures reads_or_cleared { ReadsOrCleared (is_ok result) (one_read (inst_out i none p)) from g.old g.new }
{
    graph::read(g, from, Node::Output(i, p))?;
    Ok(())
}

// The same with an index e, which is evaluated and not read: an error also where it is outside INT. With an error the graph is cleared.
fn index_read(
    i: u32,
    p: u32,
    e: &[u8],
    depth: u32,
    scope: Scope<'_>,
    g: &mut [u32],
    from: u32,
) -> Result<(), Stop>
    ensures nodes_read { NodesRead (is_ok result) (indexed_reads i (value (names_in scope.entry) (decode_expr depth e.now)) p) g.old g.new from }
    ensures reads_or_cleared { ReadsOrCleared (is_ok result) (indexed_reads i (value (names_in scope.entry) (decode_expr depth e.now)) p)
        from g.old g.new }
{
    match consteval::eval(e, depth, scope.names, scope.used) {
        Ok(Some(v)) => {
            graph::read(g, from, Node::OutputAt(i, v, p))?;
            Ok(())
        }
        Ok(None) => Ok(()),
        Err(_) => {
            graph::clear(g);
            Err(Stop)
        }
    }
}

// The end of the part behind the byte at `before`; `before` itself past the end.
fn next_end(s: &[u8], before: usize) -> usize
    ensures { result ≡ end_behind s.now before }
{
    if before < s.len() {
        return parts::part_end(s, before + 1);
    }
    before
}

// The number between two places; all that is no u32 gives the last one.
fn number_at(s: &[u8], before: usize, end: usize) -> u32
    ensures { result ≡ number_at s.now before end }
{
    let v = numbers::value(parts::between(s, before, end));
    if 4294967295 < v {
        return 4294967295;
    }
    v as u32
}

// How deep what stands k brackets inside may be.
fn under(depth: u32, k: u32) -> u32
    ensures { result ≡ depth - k }
{
    if depth < k { 0 } else { depth - k }
}

// The node `from` reads the `f` that e is: an output of an instance, or what the expression under it reads, which is at most `depth`
// brackets deep. With an error the graph is cleared.
#[cycle(expr_reads_field_reads_parts_read)]
fn field_reads(e: &[u8], depth: u32, scope: Scope<'_>, g: &mut [u32], from: u32) -> Result<(), Stop>
    ensures field_read { FieldRead (is_ok result) e.now depth scope.entry.kinds.now (names_in scope.entry) g.old g.new from }
    ensures reads_or_cleared { ReadsOrCleared (is_ok result) (field_read (expr_read scope.entry.kinds.now (names_in scope.entry) depth)
        scope.entry.kinds.now (names_in scope.entry) depth e.now) from g.old g.new }
{
    let a = next_end(e, 2);
    let x = parts::between(e, 2, a);
    let p = number_at(e, a, next_end(e, a));
    match field_of(x, scope.kinds) {
        FieldOf::Inst(i) => output_read(i, p, g, from),
        FieldOf::InstAt(i) => {
            let b = parts::part_end(x, 4);
            let index = parts::between(x, b, next_end(x, b));
            index_read(i, p, index, under(depth, 1), scope, g, from)
        }
        FieldOf::Other => expr_reads(x, depth, scope, g, from),
    }
}

// The node `from` reads what the expression e reads. With an error the graph is cleared.
#[cycle(expr_reads_field_reads_parts_read)]
fn expr_reads(e: &[u8], depth: u32, scope: Scope<'_>, g: &mut [u32], from: u32) -> Result<(), Stop>
    ensures expr_read { ExprRead (is_ok result) e.now depth scope.entry.kinds.now (names_in scope.entry) g.old g.new from }
    ensures reads_or_cleared { ReadsOrCleared (is_ok result) (expr_read scope.entry.kinds.now (names_in scope.entry) depth e.now) from g.old g.new }
{
    if !is_open(parts::byte(e, 0)) {
        return Ok(());
    }
    match name_of(e) {
        Some(n) => name_read(scope.kinds, n, g, from),
        None => {
            if depth == 0 {
                return Ok(());
            }
            if parts::byte(e, 1) == b'f' {
                return field_reads(e, depth - 1, scope, g, from);
            }
            let a = parts::part_end(e, 1);
            parts_read(e, a, depth - 1, scope, g, from)
        }
    }
}

// The node `from` reads what all the parts behind the one that ends at `end` read.
#[cycle(expr_reads_field_reads_parts_read)]
fn parts_read(
    e: &[u8],
    end: usize,
    depth: u32,
    scope: Scope<'_>,
    g: &mut [u32],
    from: u32,
) -> Result<(), Stop>
    ensures parts_read { PartsRead (is_ok result) (drop end e.now) depth scope.entry.kinds.now (names_in scope.entry) g.old g.new from }
    ensures reads_or_cleared { ReadsOrCleared (is_ok result) (parts_read scope.entry.kinds.now (names_in scope.entry) depth e.now end)
        from g.old g.new }
{
    let mut a = end;
    while parts::more(e, a) {
        let b = parts::part_end(e, a + 1);
        expr_reads(parts::between(e, a, b), depth, scope, g, from)?;
        a = b;
    }
    Ok(())
}

// The `wire` line x heads its signal, which reads its expression. The name stands behind the 5 bytes of `(wire`, START behind the
// expression. With an error the graph is cleared.
pub fn wire_heads(x: &[u8], depth: u32, scope: Scope<'_>, g: &mut [u32]) -> Result<(), Stop>
    ensures wire_leaves { WireLeaves (is_ok result) x.now depth scope.entry.kinds.now (names_in scope.entry) g.old g.new }
    ensures wire_heads { WireHeads (is_ok result) x.now depth scope.entry.kinds.now (names_in scope.entry) g.old g.new }
    ensures g_len_unchanged { length g.new ≡ length g.old }
{
    let a = next_end(x, 5);
    let b = next_end(x, a);
    let n = number_at(x, 5, a);
    let start = number_at(x, b, next_end(x, b));
    let i = graph::head(g, Node::Signal(n), start)?;
    expr_reads(parts::between(x, a, b), under(depth, 1), scope, g, i)
}

// The `drive` line x heads its signal, an output or a wire by its kind: it reads the expression, then the indexes. The LV stands
// behind the 6 bytes of `(drive`, its name behind the 3 of `(lv`. With an error the graph is cleared.
pub fn drive_heads(x: &[u8], depth: u32, scope: Scope<'_>, g: &mut [u32]) -> Result<(), Stop>
    ensures drive_leaves { DriveLeaves (is_ok result) x.now depth scope.entry.kinds.now (names_in scope.entry) g.old g.new }
    ensures drive_heads { DriveHeads (is_ok result) x.now depth scope.entry.kinds.now (names_in scope.entry) g.old g.new }
    ensures g_len_unchanged { length g.new ≡ length g.old }
{
    let a = next_end(x, 6);
    let lv = parts::between(x, 6, a);
    let b = next_end(lv, 3);
    let n = number_at(lv, 3, b);
    let Some(kind) = kind_at(scope.kinds, n as usize) else {
        return Ok(());
    };
    match kind {
        Kind::Out | Kind::Wire => {}
        Kind::In | Kind::Reg | Kind::Mem | Kind::Inst => return Ok(()),
    }
    let c = next_end(lv, b);
    let start = number_at(lv, b, c);
    let i = graph::head(g, Node::Signal(n), start)?;
    let e = parts::between(x, a, next_end(x, a));
    expr_reads(e, under(depth, 1), scope, g, i)?;
    parts_read(lv, c, under(depth, 2), scope, g, i)
}

// The value of the index of the `inst` line x, missing where it has none. Its name stands behind the 5 bytes of `(inst`, then the index.
pub fn inst_index(x: &[u8], depth: u32, names: &[u32], used: usize) -> Value
    ensures { worth result ≡ inst_index x.now depth (names_of names.now used) }
{
    let a = next_end(x, 5);
    let e = parts::between(x, a, next_end(x, a));
    if is_minus(parts::byte(e, 0)) {
        return Ok(None);
    }
    consteval::eval(e, under(depth, 1), names, used)
}

// The module of the `inst` line x.
pub fn inst_module(x: &[u8]) -> u32
    ensures { result ≡ inst_module x.now }
{
    let a = next_end(x, 5);
    let b = next_end(x, a);
    number_at(x, b, next_end(x, b))
}

// The word at i, and 0 past the end.
pub fn word(w: &[u32], i: usize) -> u32
    ensures { result ≡ get_or w.now i 0 }
{
    if i < w.len() { w[i] } else { 0 }
}

// Is the pair at p the output o and the input i?
fn is_pair(w: &[u32], p: usize, o: u32, i: u32) -> bool
    ensures { result ≡ eqb o (get_or w.now p 0) && eqb i (get_or w.now (p + 1) 0) }
{
    if o != word(w, p) {
        return false;
    }
    if p < w.len() {
        return i == word(w, p + 1);
    }
    i == 0
}

// The place of the pair behind the one at p; past the end any.
fn next_pair(w: &[u32], p: usize) -> usize
    ensures { drop result w.now ≡ drop (p + 2) w.now }
{
    if w.len() <= p {
        return p;
    }
    let q = p + 1;
    if w.len() <= q {
        return q;
    }
    q + 1
}

// Does the output o stand in the summary?
fn has_output(pairs: Pairs<'_>, o: u32) -> bool
    ensures { result ≡ has_output o (summary_in pairs.entry) }
{
    let mut p = pairs.first;
    for left in (0..pairs.count).rev() {
        if o == word(pairs.words, p) {
            return true;
        }
        p = next_pair(pairs.words, p);
    }
    false
}

// Does the output o reach the input i in that summary?
fn reaches(pairs: Pairs<'_>, o: u32, i: u32) -> bool
    ensures { result ≡ reaches o i (summary_in pairs.entry) }
{
    let mut p = pairs.first;
    for left in (0..pairs.count).rev() {
        if is_pair(pairs.words, p, o, i) {
            return true;
        }
        p = next_pair(pairs.words, p);
    }
    false
}

// The node `from` of the output o reads the connection c, if o reaches its input, which stands behind the 5 bytes of `(conn`.
fn conn_read(
    c: &[u8],
    depth: u32,
    o: u32,
    pairs: Pairs<'_>,
    scope: Scope<'_>,
    g: &mut [u32],
    from: u32,
) -> Result<(), Stop>
    ensures conn_read { ConnRead (is_ok result) o (summary_in pairs.entry) c.now depth scope.entry.kinds.now (names_in scope.entry) g.old g.new from }
    ensures reads_or_cleared { ReadsOrCleared (is_ok result) (conn_read scope.entry.kinds.now (names_in scope.entry)
        (summary_in pairs.entry) o depth c.now) from g.old g.new }
{
    let a = next_end(c, 5);
    if !reaches(pairs, o, number_at(c, 5, a)) {
        return Ok(());
    }
    expr_reads(parts::between(c, a, next_end(c, a)), depth, scope, g, from)
}

// It reads so all the connections behind the part of x that ends at `end`.
fn conns_read(
    x: &[u8],
    end: usize,
    depth: u32,
    o: u32,
    pairs: Pairs<'_>,
    scope: Scope<'_>,
    g: &mut [u32],
    from: u32,
) -> Result<(), Stop>
    ensures conns_read { ConnsRead (is_ok result) o (summary_in pairs.entry) (drop end x.now) depth
        scope.entry.kinds.now (names_in scope.entry) g.old g.new from }
    ensures reads_or_cleared { ReadsOrCleared (is_ok result) (conns_read scope.entry.kinds.now (names_in scope.entry)
        (summary_in pairs.entry) o depth x.now end) from g.old g.new }
{
    let mut a = end;
    while parts::more(x, a) {
        let b = parts::part_end(x, a + 1);
        let c = parts::between(x, a, b);
        conn_read(c, depth, o, pairs, scope, g, from)?;
        a = b;
    }
    Ok(())
}

// The node of the output o of the instance i with that index, one without value being none.
fn output_node(i: u32, index: Value, o: u32) -> Node
    ensures { node_of result ≡ inst_out i (index_of (worth index)) o }
{
    match index {
        Ok(Some(v)) => Node::OutputAt(i, v, o),
        _ => Node::Output(i, o),
    }
}

// The `inst` line x heads the output o.
fn output_head(
    x: &[u8],
    depth: u32,
    index: Value,
    o: u32,
    pairs: Pairs<'_>,
    scope: Scope<'_>,
    g: &mut [u32],
) -> Result<(), Stop>
    ensures output_head { OutputHead (is_ok result) o (worth index) (summary_in pairs.entry)
        x.now depth scope.entry.kinds.now (names_in scope.entry) g.old g.new }
    ensures output_leaves { OutputLeaves (is_ok result) (inst_reads scope.entry.kinds.now (names_in scope.entry)
        (summary_in pairs.entry) depth x.now o) o (worth index) x.now g.old g.new }
{
    let a = next_end(x, 5);
    let c = next_end(x, next_end(x, a));
    let end = next_end(x, c);
    let n = output_node(number_at(x, 5, a), index, o);
    let i = graph::head(g, n, number_at(x, c, end))?;
    conns_read(x, end, under(depth, 2), o, pairs, scope, g, i)
}

// The `inst` line x heads every output in the summary of its module: an output with its last pair.
// With an error the graph is cleared.
pub fn inst_heads(
    x: &[u8],
    depth: u32,
    index: Value,
    pairs: Pairs<'_>,
    scope: Scope<'_>,
    g: &mut [u32],
) -> Result<(), Stop>
    ensures inst_leaves { InstLeaves (is_ok result) (worth index) (summary_in pairs.entry) x.now depth
        scope.entry.kinds.now (names_in scope.entry) g.old g.new }
    ensures inst_heads { InstHeads (is_ok result) (worth index) (summary_in pairs.entry) x.now depth
        scope.entry.kinds.now (names_in scope.entry) g.old g.new }
    ensures g_len_unchanged { length g.new ≡ length g.old }
{
    let mut p = pairs.first;
    for left in (0..pairs.count).rev() {
        let o = word(pairs.words, p);
        p = next_pair(pairs.words, p);
        let later = Pairs {
            words: pairs.words,
            first: p,
            count: left,
        };
        if has_output(later, o) {
            continue;
        }
        output_head(x, depth, index, o, pairs, scope, g)?;
    }
    Ok(())
}
