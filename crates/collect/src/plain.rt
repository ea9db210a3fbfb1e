// What a collected line leaves in the tables, without the items that it holds and the summary that it asks for. With an error the tables
// that are lent to it to be written are cleared.
ghost use Rattle.std.specs.Prelude.{is_ok};
ghost use Rattle.consteval.specs.Worth.{worth};
ghost use Rattle.edges.specs.Lines.{summary_at, names_in, InstHeads};
ghost use Rattle.collect.specs.Plain.{LineHeads, HeadsLeave, PlainLine, PlainLeaves, InstLeaves};

use consteval::Value;
use edges::{Pairs, Scope, Stop};
use lines::parts;

// What the line x heads and reads, by the first byte of its word.
fn line_heads(x: &[u8], depth: u32, scope: Scope<'_>, g: &mut [u32]) -> Result<(), Stop>
    ensures line_heads { LineHeads (is_ok result) x.now depth scope.entry.kinds.now (names_in scope.entry) g.old g.new }
    ensures heads_leave { HeadsLeave (is_ok result) g.old g.new }
{
    let c = parts::byte(x, 1);
    if c == b'w' {
        return edges::wire_heads(x, depth, scope, g);
    }
    if c == b'd' {
        return edges::drive_heads(x, depth, scope, g);
    }
    Ok(())
}

// The line x, which holds no items, asks for no summary and begins at `from` of the text: its entries in the own tables, then what it heads and
// reads. Only a module's own check has own tables.
pub(crate) fn plain_line(
    x: &[u8],
    from: u32,
    depth: u32,
    scope: Scope<'_>,
    checking: bool,
    bound: bool,
    own: &mut [u32],
    g: &mut [u32],
) -> Result<(), Stop>
    ensures plain_line { PlainLine (is_ok result) x.now from depth scope.entry.kinds.now checking bound (names_in scope.entry)
        own.old g.old own.new g.new }
    ensures plain_leaves { PlainLeaves (is_ok result) checking own.old own.new g.old g.new }
{
    if checking {
        if let Err(e) = items::own_line(x, from, bound, depth, scope, own) {
            graph::clear(g);
            return Err(e);
        }
        if let Err(e) = line_heads(x, depth, scope, g) {
            graph::clear(own);
            return Err(e);
        }
        return Ok(());
    }
    if items::drive_outside(x, depth, scope) {
        graph::clear(own);
        graph::clear(g);
        return Err(Stop);
    }
    if let Err(e) = line_heads(x, depth, scope, g) {
        graph::clear(own);
        return Err(e);
    }
    Ok(())
}

// The `inst` line x heads the outputs in the summary of its module, `count` pairs of k from `first` on.
pub(crate) fn inst_line(
    x: &[u8],
    depth: u32,
    index: Value,
    k: &mut [u32],
    first: usize,
    count: usize,
    scope: Scope<'_>,
    g: &mut [u32],
) -> Result<(), Stop>
    ensures inst_heads { InstHeads (is_ok result) (worth index) (summary_at k.old first count) x.now depth scope.entry.kinds.now
        (names_in scope.entry) g.old g.new }
    ensures inst_leaves { InstLeaves (is_ok result) (worth index) (summary_at k.old first count) x.now depth scope.entry.kinds.now
        (names_in scope.entry) g.old g.new k.old k.new }
{
    let pairs = Pairs {
        words: k,
        first,
        count,
    };
    if let Err(e) = edges::inst_heads(x, depth, index, pairs, scope, g) {
        graph::clear(k);
        return Err(e);
    }
    Ok(())
}
