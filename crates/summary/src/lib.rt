// The table of kept summaries: which modules are in progress, and of those that are kept the pairs of output and input. One lent slice;
// specs/Keeps.antt says what its words are. Every function is safe for any slice.
#![tactic(auto)]

ghost use Rattle.std.specs.Prelude.{◌≡◌, false, is_ok, List, [], ◌∷◌, ℕ, ◌<◌, get_or, set};
ghost use Rattle.spec.specs.Syntax.{Item, Header, Module};
ghost use Rattle.spec.specs.Refusal.{has_name};
ghost use Rattle.spec.specs.Edge.{Head, Summary};
ghost use Rattle.spec.specs.Summary.{Kept, paired};
ghost use Rattle.runs.specs.Run.{ShowsItem, RunOf};
ghost use Rattle.graph.specs.Stands.{Stands};
ghost use Rattle.graph.specs.Reach.{Clean, found};
ghost use Rattle.edges.specs.Reads.{KindsOf};
ghost use Rattle.summary.specs.Keeps.{state_of, first_of, count_of, Keeps, recorded, Made, emptied};
ghost use Rattle.summary.specs.Pairs.{Grown, Added, OutputAdded, PortIs, pairs_written, OutputLeaves, port_of, Leaves};

use graph::Full;
use lines::{numbers, parts};

// A module that no line asked for yet, one that is being summarised, one whose summary is kept.
#[derive(Clone, Copy, Debug, PartialEq, Eq)]
pub enum State {
    New,
    Busy,
    Kept,
}

// The words of the table.
pub const KEPT: usize = 2145;

const MODULES: usize = 32;

const START: usize = 32;

const COUNT: usize = 64;

const TOTAL: usize = 96;

const PAIRS: usize = 97;

// 1,024 summary triples in all.
const TRIPLES: u32 = 1024;

// How many names there are at most.
const NAMES: usize = 256;

// The words of a search for inputs.
const SEARCH: usize = 1538;

// The word at i, and 0 past the end.
fn at(k: &[u32], i: usize) -> u32
    ensures { result ≡ get_or k.now i 0 }
{
    if i < k.len() { k[i] } else { 0 }
}

// Stores a word at i, nothing past the end.
fn put(k: &mut [u32], i: usize, v: u32)
    ensures { k.new ≡ set k.old i v }
{
    if i < k.len() {
        k[i] = v;
    }
}

// The state of the module m.
pub fn state_of(k: &[u32], m: u32) -> State
    ensures { result ≡ state_of k.now m }
{
    let s = at(k, m as usize);
    if s == 0 {
        return State::New;
    }
    if s == 1 {
        return State::Busy;
    }
    State::Kept
}

// The word at which the pairs of the module m begin.
pub fn first(k: &[u32], m: u32) -> usize
    ensures { result ≡ first_of k.now m }
{
    PAIRS + 2 * (at(k, START + m as usize) as usize)
}

// The number of pairs of the module m.
pub fn count(k: &[u32], m: u32) -> usize
    ensures { result ≡ count_of k.now m }
{
    at(k, COUNT + m as usize) as usize
}

// The module m is in progress from now on.
pub fn begin(k: &mut [u32], m: u32)
    ensures { k.new ≡ set k.old m 1 }
{
    put(k, m as usize, 1);
}

// No summary is kept, and no module is in progress.
pub fn reset(k: &mut [u32])
    ensures { k.new ≡ emptied k.old }
{
    for i in 0..MODULES {
        put(k, i, 0);
    }
    put(k, TOTAL, 0);
}

// The name of the `port out` line that the bytes x show, by the first of them; none where they show another item.
fn port_of(x: &[u8]) -> Option<u32>
    ensures port_is { (i : Item) (d : ℕ) → ShowsItem x.now d i → PortIs result i }
    ensures value { result ≡ port_of x.now }
{
    if parts::byte(x, 1) != b'p' {
        return None;
    }
    if parts::byte(x, 6) != b'o' {
        return None;
    }
    let end = parts::part_end(x, 10);
    let n = numbers::value(parts::between(x, 9, end));
    if 255 < n {
        return None;
    }
    Some(n as u32)
}

// One pair more, if there is room for it.
fn push(k: &mut [u32], o: u32, i: u32) -> Result<(), Full>
    ensures by_index { (k₀ : List ℕ) (ps : Summary) → Grown k₀ k.old ps → Added (is_ok result) k₀ k.new ps ((o, i) ∷ []) }
    ensures k_value { pairs_written ((o, i) ∷ []) k.old ≡ (is_ok result, k.new) }
{
    let n = at(k, TOTAL);
    if TRIPLES <= n {
        return Err(Full);
    }
    let p = PAIRS + 2 * (n as usize);
    put(k, p, o);
    put(k, p + 1, i);
    put(k, TOTAL, n + 1);
    Ok(())
}

// A pair of the output o with each of the n names that the last search found.
fn push_found(k: &mut [u32], w: &[u32], n: u32, o: u32) -> Result<(), Full>
    ensures by_index { (k₀ : List ℕ) (ps : Summary) → Grown k₀ k.old ps → Added (is_ok result) k₀ k.new ps (paired o (found w.now n)) }
    ensures k_value { pairs_written (paired o (found w.now n)) k.old ≡ (is_ok result, k.new) }
{
    for i in (0..n).rev() {
        push(k, o, graph::found_name(w, i))?;
    }
    Ok(())
}

// A pair of the output o with each input that it reaches.
fn add_output(kinds: &[u8], g: &[u32], w: &mut [u32], k: &mut [u32], o: u32) -> Result<(), Full>
    ensures output_added { (header : List Header) (heads : List Head) → KindsOf kinds.now header → Stands g.now heads → Clean w.old
        → (k₀ : List ℕ) (ps : Summary) → Grown k₀ k.old ps → OutputAdded (is_ok result) w.new k₀ k.new ps header heads o }
    ensures output_leaves { OutputLeaves (is_ok result) kinds.now g.now w.old w.new k.old o k.new }
{
    let n = graph::reach(g, kinds, w, o);
    push_found(k, w, n, o)
}

// The summary of the module m is kept: so many pairs from that number on.
fn keep(k: &mut [u32], m: u32, start: u32, count: u32)
    ensures { k.new ≡ recorded k.old m start count }
{
    put(k, START + m as usize, start);
    put(k, COUNT + m as usize, count);
    put(k, m as usize, 2);
}

// Makes the summary of the module m, which is in progress, from the run s of its items and its graph g, and keeps it; or that
// is a triple too many, and the table is cleared.
pub fn summarise(s: &[u8], kinds: &[u8], g: &[u32], k: &mut [u32], m: u32) -> Result<(), Full>
    ensures by_index { (d : ℕ) (M : Module) (heads : List Head) (kept : Kept) (busy : List ℕ)
        → RunOf d s.now M.items → KindsOf kinds.now M.header → Stands g.now heads → Keeps k.old kept (m ∷ busy) → m < 32
        → has_name m busy ≡ false → Made (is_ok result) k.new m M heads kept busy }
    ensures leaves { Leaves (is_ok result) s.now kinds.now g.now k.old m k.new }
{
    let start = at(k, TOTAL);
    let mut seen = [0u8; NAMES];
    let mut w = [0u32; SEARCH];
    let mut from: usize = 0;
    while from + 1 < s.len() {
        let before = from;
        from = runs::form_end(s, before + 1);
        let Some(o) = port_of(parts::between(s, before, from)) else {
            continue;
        };
        let i = o as usize;
        if seen[i] != 0 {
            continue;
        }
        seen[i] = 1;
        if let Err(full) = add_output(kinds, g, &mut w, k, o) {
            graph::clear(k);
            return Err(full);
        }
    }
    let end = at(k, TOTAL);
    keep(k, m, start, end - start);
    Ok(())
}
