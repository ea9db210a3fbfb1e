// A module of an accepted text by the tables that its reader leaves: its kinds, where the run of its items begins, whether it is bound.
// `clear_tables` is for a walk that stops: a limit is passed or a constant is outside INT.
ghost use Rattle.std.specs.Prelude.{◌≡◌, ◌+◌, ◌-◌, ◌*◌, get_or, take, drop, ltb};
ghost use Rattle.spec.specs.Cleared.{Cleared};

use steps::modules;

// How many names a module has at most.
const NAMES: usize = 256;

// The kinds of the names of module m.
pub(crate) fn module_kinds(kinds: &[u8], m: u32) -> &[u8]
    ensures { result.now ≡ take 256 (drop (m * 256) kinds.now) }
{
    let from = m as usize * NAMES;
    modules::stretch(kinds, from, from + NAMES)
}

// Where the run of the items of module m begins: at the byte before the first.
pub(crate) fn run_at(mods: &[u32], m: u32) -> u32
    ensures { result ≡ get_or mods.now (m * 4 + 2) 0 - 1 }
{
    let i = edges::word(mods, m as usize * 4 + 2);
    if i == 0 { 0 } else { i - 1 }
}

// Is module m bound?
pub(crate) fn is_bound(mods: &[u32], m: u32) -> bool
    ensures { result ≡ ltb 0 (get_or mods.now (m * 4) 0) }
{
    0 < edges::word(mods, m as usize * 4)
}

// Every place of the tables that a walk fills becomes 0.
pub(crate) fn clear_tables(own: &mut [u32], g: &mut [u32], k: &mut [u32])
    ensures { Cleared own.new × Cleared g.new × Cleared k.new }
{
    graph::clear(own);
    graph::clear(g);
    graph::clear(k);
}
