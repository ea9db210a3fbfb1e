// A module of an accepted text, by the table of places that the reader leaves: the run of its items, and its name table.
ghost use Rattle.std.specs.Prelude.{◌≡◌, ◌+◌, ◌-◌, ◌*◌, ◌≤◌, length, get_or, take, drop};
ghost use Rattle.spec.specs.Syntax.{Module};
ghost use Rattle.spec.specs.Value.{own_vals, name_table};
ghost use Rattle.runs.specs.Text.{ModuleAt, items_run};
ghost use Rattle.steps.specs.Modules.{name_places, named_by, table_by, NamesAre};

use consteval::{Outside, fill};

// The places of a name table: two for each `val` and `const` line that a text has room for, and for each of 32 repeats, one in the other.
pub const NAMES: usize = 6616;

// Entry k of module m, 0 past the end.
fn place(mods: &[u32], m: u32, k: u32) -> usize
    ensures { result ≡ get_or mods.now (m * 4 + k) 0 }
{
    let i = m as usize * 4 + k as usize;
    if i < mods.len() { mods[i] as usize } else { 0 }
}

// The bytes from one place to another, as far as there are any.
pub fn stretch(text: &[u8], from: usize, to: usize) -> &[u8]
    ensures { result.now ≡ take (to - from) (drop from text.now) }
{
    if text.len() <= from {
        return &text[text.len()..];
    }
    if text.len() < to {
        return &text[from..];
    }
    if to < from {
        return &text[text.len()..];
    }
    &text[from..to]
}

// The run of the items of module m.
pub fn items_of_module<'a>(text: &'a [u8], mods: &[u32], m: u32) -> &'a [u8]
    ensures { result.now ≡ items_run text.now mods.now m }
{
    let i = place(mods, m, 2);
    let e = place(mods, m, 3);
    if i == 0 {
        return stretch(text, 0, e);
    }
    stretch(text, i - 1, e)
}

// The name table of module m: its `val` lines, then its top-level `const` lines. Its used pairs are counted, unless a constant is outside INT.
pub fn names_of_module(
    text: &[u8],
    mods: &[u32],
    m: u32,
    names: &mut [u32],
) -> Result<usize, Outside>
    ensures value { result ≡ named_by text.now mods.now m names.old }
    ensures names_after { names.new ≡ table_by text.now mods.now m names.old }
    ensures names_are { (k : Module) → ModuleAt text.now mods.now m k → name_places ≤ length names.old
        → NamesAre result names.new (name_table (own_vals k) k) }
{
    let h = place(mods, m, 1);
    let i = place(mods, m, 2);
    let e = place(mods, m, 3);
    fill::fill(stretch(text, h, i), stretch(text, i, e), names).map_err(|_| Outside)
}
