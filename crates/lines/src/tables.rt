// The tables of a text that is well formed: the kinds of each module's names, and where each module's header, items and end are.
ghost use Rattle.std.specs.Prelude.{◌≡◌, ◌+◌, ◌*◌, ◌<◌, length};
ghost use Rattle.lines.specs.Tables.{second_behind, second_key, flag_of, entries, marked};
ghost use Rattle.lines.specs.Pass.{at_first_line, behind_module, behind_line, Standing, step_at, behind, entered_number, seen_behind, kinds_behind, mods_behind};
ghost use Rattle.lines.specs.Read.{step_number};

use crate::bytes::{is_open, is_space};
use crate::keys;
use crate::kinds::byte_of;
use crate::parse::{EACH_NAME, Number, kind_of, word_at};
use crate::parts::byte;
use crate::read::{Fault, Refusal, Step, line_step, number_after};

// How long the tables of kinds and of modules' places are.
pub const KINDS: usize = 32 * EACH_NAME;

pub const MODS: usize = 32 * 4;

fn second_behind(s: &[u8], n: Option<Number>) -> u64
    ensures { result ≡ second_behind n s.now }
{
    let Some(n) = n else {
        return 0;
    };
    if !is_space(byte(s, n.next)) {
        return 0;
    }
    word_at(s, n.next + 1).key
}

// The word behind the number of the form at a position.
fn second_key(s: &[u8], at: usize) -> u64
    ensures { result ≡ second_key s.now at }
{
    if !is_open(byte(s, at)) {
        return 0;
    }
    second_behind(s, number_after(s, word_at(s, at + 1).next))
}

fn flag_of(key: u64) -> u32
    ensures { result ≡ flag_of key }
{
    if key == keys::BOUND { 1 } else { 0 }
}

// A module's places where it begins: all its lines stand behind it.
fn enter(mods: &mut [u32], m: usize, flag: u32, at: u32)
    requires { m * 4 + 3 < length mods.old }
    ensures { mods.new ≡ entries mods.old m flag at at at }
{
    mods[m * 4] = flag;
    mods[m * 4 + 1] = at;
    mods[m * 4 + 2] = at;
    mods[m * 4 + 3] = at;
}

// A module's items begin here, and its end is here so far.
fn mark(mods: &mut [u32], m: usize, first: u32, end: u32)
    requires { m * 4 + 3 < length mods.old }
    ensures { mods.new ≡ marked mods.old m first end }
{
    mods[m * 4 + 2] = first;
    mods[m * 4 + 3] = end;
}

// Where the reading stands: where the next line begins and which row it is, how many modules there are, whether the last of them
// has an item, and where its items begin so far.
#[derive(Clone, Copy)]
pub(crate) struct Progress {
    pub next: usize,
    pub row: u32,
    pub modules: u32,
    pub items: bool,
    pub first: u32,
}

pub(crate) fn start() -> Progress
    ensures { result ≡ at_first_line }
{
    Progress {
        next: 0,
        row: 1,
        modules: 0,
        items: false,
        first: 0,
    }
}

// A module has no item yet.
fn behind_module(p: Progress, next: usize, first: u32) -> Progress
    requires row_bound { p.row < 32769 }
    requires modules_bound { p.modules < 32 }
    ensures { result ≡ behind_module p next first }
{
    Progress {
        next,
        row: p.row + 1,
        modules: p.modules + 1,
        items: false,
        first,
    }
}

// Another line of the last module.
fn behind_line(p: Progress, next: usize, items: bool, first: u32) -> Progress
    requires { p.row < 32769 }
    ensures { result ≡ behind_line p next items first }
{
    Progress {
        next,
        row: p.row + 1,
        items,
        first,
        ..p
    }
}

// The line at a position: what it adds is entered into the tables, which a fault leaves as they are. `seen` has the names with a
// kind in the last module.
pub(crate) fn enter_line(
    text: &[u8],
    at: usize,
    p: Progress,
    seen: &mut [u8],
    kinds: &mut [u8],
    mods: &mut [u32],
) -> Result<Progress, Fault>
    requires { Standing text.now at p seen.old kinds.old mods.old }
    ensures { (result ≡ behind (step_at text.now at p seen.old) p)
        × ((seen.new ≡ seen_behind (step_at text.now at p seen.old) seen.old)
        × ((kinds.new ≡ kinds_behind (step_at text.now at p seen.old) text.now at p kinds.old)
        × ((mods.new ≡ mods_behind (step_at text.now at p seen.old) text.now at p mods.old)
        × (entered_number result ≡ step_number (step_at text.now at p seen.old))))) }
{
    let step = line_step(text, at, p.modules, p.items, seen)?;
    match step {
        Step::Module(feed) => {
            let flag = flag_of(second_key(text, at));
            let first = (feed + 1) as u32;
            enter(mods, p.modules as usize, flag, first);
            seen.fill(0);
            Ok(behind_module(p, feed + 1, first))
        }
        Step::Kind(feed, name) => {
            let k = byte_of(kind_of(second_key(text, at)));
            let m = (p.modules - 1) as usize;
            let first = (feed + 1) as u32;
            kinds[m * EACH_NAME + name] = k;
            mark(mods, m, first, first);
            seen[name] = 1;
            Ok(behind_line(p, feed + 1, p.items, first))
        }
        Step::Val(feed) => {
            let first = (feed + 1) as u32;
            mark(mods, (p.modules - 1) as usize, first, first);
            Ok(behind_line(p, feed + 1, p.items, first))
        }
        Step::Item(feed) => {
            mark(mods, (p.modules - 1) as usize, p.first, (feed + 1) as u32);
            Ok(behind_line(p, feed + 1, true, p.first))
        }
    }
}

// Why no tables are made: those lent are too short, or the text is refused.
#[derive(Clone, Copy, Debug, PartialEq, Eq)]
pub enum ReadError {
    Short,
    Refused(Refusal),
}
