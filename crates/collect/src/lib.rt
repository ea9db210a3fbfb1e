// The walk over a module's items, the edges of its instances, and the summaries that they ask for: each calls the next. Ends because a
// summary that is begun takes one from `fuel`, the number of modules that may still be begun, and a body takes brackets from `depth`.
#![tactic(auto)]

mod places;
mod plain;

ghost use Rattle.std.specs.Prelude.{◌≡◌, true, false, List, [], ℕ, suc, ◌+◌, ◌≤◌, ◌<◌, length, is_ok};
ghost use Rattle.std.proofs.Math.Option.{none};
ghost use Rattle.consteval.specs.Worth.{names_of};
ghost use Rattle.spec.specs.Refusal.{decode, has_name};
ghost use Rattle.spec.specs.Syntax.{Module};
ghost use Rattle.spec.specs.Summary.{Kept, kept_summary};
ghost use Rattle.walk.specs.Walk.{ask_walk, own_walk};
ghost use Rattle.steps.specs.declared.Head as heads;
ghost use Rattle.steps.specs.declared.Head.TheVariants as head;
ghost use Rattle.summary.specs.Keeps.{Keeps};
ghost use Rattle.collect.specs.Face.{WalkGiven, ModuleGiven, Collects, left_of, Walkable, LentAfter};
ghost use Rattle.collect.specs.Cycle.{walk_number, Mode, World, Given, Single, OneGiven, mode, Ends, walk_of, one_of, turns_of, step_of, Framed, RoundsWithin, WalkLeaves, Stepped, Tabled, AskedFor, AskLeaves, EdgesLeave};

use consteval::names;
use edges::{Scope, Stop};
use lines::parts;
use steps::{Head, Times, modules};
use summary::State;

// What collecting a module gives: how many names its table has, and the rounds left.
#[derive(Clone, Copy, Debug, PartialEq, Eq)]
pub struct Collected {
    pub used: usize,
    pub left: u32,
}

// The text and the tables that its reader leaves: the kinds of all names, where the modules stand, and how many they are.
#[derive(Clone, Copy)]
struct Source<'a> {
    text: &'a [u8],
    kinds: &'a [u8],
    mods: &'a [u32],
    count: u32,
}

// What a run of items is walked with: how many modules may still be begun, the brackets left, which walk it is, and how many names are used.
#[derive(Clone, Copy)]
struct Pass {
    fuel: u32,
    depth: u32,
    checking: bool,
    bound: bool,
    used: usize,
}

// The rounds of a repeat: its variable, the first value, how many there are, and what is left of the module's rounds when these are spent.
#[derive(Clone, Copy)]
struct Turn {
    name: u32,
    low: u32,
    rounds: u32,
    left: u32,
}

// Walks a run of items: what stands behind the byte at 0 of s, which is at `base` in the text.
#[cycle(branch_items_collect_item_collect_items_comb_summary_inst_edges_make_summary_repeat_items_repeat_rounds)]
fn collect_items(
    source: &Source,
    s: &[u8],
    base: u32,
    pass: Pass,
    left: u32,
    ks: &[u8],
    names: &mut [u32],
    own: &mut [u32],
    g: &mut [u32],
    k: &mut [u32],
) -> Result<u32, Stop>
    requires { base + length s.now ≤ 4294967295 }
    ensures ends { (w : World) → Given (mode pass.checking pass.bound) source.now.text.now source.now.kinds.now source.now.mods.now
        source.now.count s.now base pass.depth
        ks.now names.old pass.used own.old g.old k.old w
        → Ends result (mode pass.checking pass.bound) source.now.text.now own.new g.new k.new w.busy
        (walk_of pass.fuel source.now.text.now (mode pass.checking pass.bound) w (names_of names.old pass.used) left) }
    ensures framed { Framed pass.used names.old names.new × RoundsWithin result left }
    ensures walk_leaves { WalkLeaves result pass.checking own.old own.new g.old g.new k.old k.new }
{
    let mut at: usize = 0;
    let mut left = left;
    while at + 1 < s.len() {
        let end = runs::form_end(s, at + 1);
        let x = parts::between(s, at, end);
        let from = base + at as u32 + 1;
        left = collect_item(source, x, from, pass, left, ks, names, own, g, k)?;
        at = end;
    }
    Ok(left)
}

// Walks one item, which is at `from` in the text: its line, then what it holds.
#[cycle(branch_items_collect_item_collect_items_comb_summary_inst_edges_make_summary_repeat_items_repeat_rounds)]
fn collect_item(
    source: &Source,
    x: &[u8],
    from: u32,
    pass: Pass,
    left: u32,
    ks: &[u8],
    names: &mut [u32],
    own: &mut [u32],
    g: &mut [u32],
    k: &mut [u32],
) -> Result<u32, Stop>
    requires { from + length x.now ≤ 4294967295 }
    ensures ends { (h : heads.Head) (w : Single) → OneGiven h (mode pass.checking pass.bound) source.now.text.now source.now.kinds.now
        source.now.mods.now source.now.count x.now from pass.depth
        ks.now names.old pass.used own.old g.old k.old w
        → Ends result (mode pass.checking pass.bound) source.now.text.now own.new g.new k.new w.busy
        (one_of pass.fuel source.now.text.now (mode pass.checking pass.bound) w (names_of names.old pass.used) left) }
    ensures framed { Framed pass.used names.old names.new × RoundsWithin result left }
    ensures walk_leaves { WalkLeaves result pass.checking own.old own.new g.old g.new k.old k.new }
{
    match steps::head_of(x) {
        Head::Plain => {
            let scope = Scope {
                kinds: ks,
                names,
                used: pass.used,
            };
            if let Err(e) = plain::plain_line(
                x,
                from,
                pass.depth,
                scope,
                pass.checking,
                pass.bound,
                own,
                g,
            ) {
                graph::clear(k);
                return Err(e);
            }
            Ok(left)
        }
        Head::Inst => {
            if let Err(e) = inst_edges(source, x, pass, ks, names, g, k) {
                graph::clear(own);
                return Err(e);
            }
            Ok(left)
        }
        Head::Repeat => repeat_items(source, x, from, pass, left, ks, names, own, g, k),
        Head::ConstIf => branch_items(source, x, from, pass, left, ks, names, own, g, k),
    }
}

// A `repeat` line: its body once, or as often as its bounds say; the rounds are spent before the body runs.
#[cycle(branch_items_collect_item_collect_items_comb_summary_inst_edges_make_summary_repeat_items_repeat_rounds)]
fn repeat_items(
    source: &Source,
    x: &[u8],
    from: u32,
    pass: Pass,
    left: u32,
    ks: &[u8],
    names: &mut [u32],
    own: &mut [u32],
    g: &mut [u32],
    k: &mut [u32],
) -> Result<u32, Stop>
    requires { from + length x.now ≤ 4294967295 }
    ensures ends { (w : Single) → OneGiven head.Repeat (mode pass.checking pass.bound) source.now.text.now source.now.kinds.now
        source.now.mods.now source.now.count x.now from pass.depth
        ks.now names.old pass.used own.old g.old k.old w
        → Ends result (mode pass.checking pass.bound) source.now.text.now own.new g.new k.new w.busy
        (one_of pass.fuel source.now.text.now (mode pass.checking pass.bound) w (names_of names.old pass.used) left) }
    ensures framed { Framed pass.used names.old names.new × RoundsWithin result left }
    ensures walk_leaves { WalkLeaves result pass.checking own.old own.new g.old g.new k.old k.new }
{
    if pass.depth == 0 {
        places::clear_tables(own, g, k);
        return Err(Stop);
    }
    let a = steps::body_at(x);
    let s = parts::rest(x, a);
    let base = from + a as u32;
    let mut deep = pass;
    deep.depth = pass.depth - 1;
    match steps::times_of(x, pass.depth, names, pass.used, left) {
        Err(_) => {
            places::clear_tables(own, g, k);
            Err(Stop)
        }
        Ok(Times::Never) => Ok(left),
        Ok(Times::Once) => collect_items(source, s, base, deep, left, ks, names, own, g, k),
        Ok(Times::Rounds(n, low, rounds)) => {
            if left < rounds {
                places::clear_tables(own, g, k);
                return Err(Stop);
            }
            if 4294967295 - low < rounds {
                places::clear_tables(own, g, k);
                return Err(Stop);
            }
            let turn = Turn {
                name: n,
                low,
                rounds,
                left: left - rounds,
            };
            repeat_rounds(source, s, base, deep, turn, ks, names, own, g, k)
        }
    }
}

// The rounds of a `repeat`: its body s once for each value of its variable, which is the newest name.
#[cycle(branch_items_collect_item_collect_items_comb_summary_inst_edges_make_summary_repeat_items_repeat_rounds)]
fn repeat_rounds(
    source: &Source,
    s: &[u8],
    base: u32,
    pass: Pass,
    turn: Turn,
    ks: &[u8],
    names: &mut [u32],
    own: &mut [u32],
    g: &mut [u32],
    k: &mut [u32],
) -> Result<u32, Stop>
    requires s_bound { base + length s.now ≤ 4294967295 }
    requires rounds_bound { turn.low + turn.rounds ≤ 4294967295 }
    ensures ends { (w : World) → Given (mode pass.checking pass.bound) source.now.text.now source.now.kinds.now source.now.mods.now
        source.now.count s.now base pass.depth
        ks.now names.old (pass.used + 1) own.old g.old k.old w
        → Ends result (mode pass.checking pass.bound) source.now.text.now own.new g.new k.new w.busy
        (turns_of pass.fuel source.now.text.now (mode pass.checking pass.bound) w turn.name turn.low turn.rounds
        (names_of names.old pass.used) turn.left) }
    ensures framed { Framed pass.used names.old names.new × RoundsWithin result turn.left }
    ensures walk_leaves { WalkLeaves result pass.checking own.old own.new g.old g.new k.old k.new }
{
    let mut left = turn.left;
    for i in 0..turn.rounds {
        if !names::push(names, pass.used, turn.name, turn.low + i) {
            places::clear_tables(own, g, k);
            return Err(Stop);
        }
        let mut open = pass;
        open.used = pass.used + 1;
        left = collect_items(source, s, base, open, left, ks, names, own, g, k)?;
    }
    Ok(left)
}

// A `constif` line: the items of the branch that its condition takes.
#[cycle(branch_items_collect_item_collect_items_comb_summary_inst_edges_make_summary_repeat_items_repeat_rounds)]
fn branch_items(
    source: &Source,
    x: &[u8],
    from: u32,
    pass: Pass,
    left: u32,
    ks: &[u8],
    names: &mut [u32],
    own: &mut [u32],
    g: &mut [u32],
    k: &mut [u32],
) -> Result<u32, Stop>
    requires { from + length x.now ≤ 4294967295 }
    ensures ends { (w : Single) → OneGiven head.ConstIf (mode pass.checking pass.bound) source.now.text.now source.now.kinds.now
        source.now.mods.now source.now.count x.now from pass.depth
        ks.now names.old pass.used own.old g.old k.old w
        → Ends result (mode pass.checking pass.bound) source.now.text.now own.new g.new k.new w.busy
        (one_of pass.fuel source.now.text.now (mode pass.checking pass.bound) w (names_of names.old pass.used) left) }
    ensures framed { Framed pass.used names.old names.new × RoundsWithin result left }
    ensures walk_leaves { WalkLeaves result pass.checking own.old own.new g.old g.new k.old k.new }
{
    if pass.depth < 2 {
        places::clear_tables(own, g, k);
        return Err(Stop);
    }
    match steps::branch_of(x, pass.depth, names, pass.used) {
        Err(_) => {
            places::clear_tables(own, g, k);
            Err(Stop)
        }
        Ok(run) => {
            if x.len() <= run.before {
                places::clear_tables(own, g, k);
                return Err(Stop);
            }
            let s = parts::between(x, run.before, run.end);
            let base = from + run.before as u32 + 1;
            let mut deep = pass;
            deep.depth = pass.depth - 2;
            collect_items(source, s, base, deep, left, ks, names, own, g, k)
        }
    }
}

// An `inst` line: the index of the instance, the summary of its module, and what its outputs read.
#[cycle(branch_items_collect_item_collect_items_comb_summary_inst_edges_make_summary_repeat_items_repeat_rounds)]
fn inst_edges(
    source: &Source,
    x: &[u8],
    pass: Pass,
    ks: &[u8],
    names: &[u32],
    g: &mut [u32],
    k: &mut [u32],
) -> Result<(), Stop>
    ensures stepped { (mo : Mode) (own : List ℕ) (from : ℕ) (w : Single)
        → OneGiven head.Inst mo source.now.text.now source.now.kinds.now source.now.mods.now source.now.count x.now from pass.depth
        ks.now names.now pass.used own g.old k.old w
        → Stepped (is_ok result) mo source.now.text.now own g.new k.new w.busy
        (step_of pass.fuel source.now.text.now mo w.header w.busy (names_of names.now pass.used) w.item w.state) }
    ensures edges_leave { EdgesLeave (is_ok result) g.old g.new k.old k.new }
{
    let index = edges::inst_index(x, pass.depth, names, pass.used);
    if index.is_err() {
        graph::clear(g);
        graph::clear(k);
        return Err(Stop);
    }
    let m = edges::inst_module(x);
    let known = match comb_summary(source, m, pass, k) {
        Ok(known) => known,
        Err(e) => {
            graph::clear(g);
            return Err(e);
        }
    };
    let scope = Scope {
        kinds: ks,
        names,
        used: pass.used,
    };
    if !known {
        return plain::inst_line(x, pass.depth, index, k, 0, 0, scope, g);
    }
    let first = summary::first(k, m);
    let pairs = summary::count(k, m);
    plain::inst_line(x, pass.depth, index, k, first, pairs, scope, g)
}

// The summary of module m, made when it is first asked for: true where its pairs stand in the table, false where nothing is known of it, since it is
// missing or in progress.
#[cycle(branch_items_collect_item_collect_items_comb_summary_inst_edges_make_summary_repeat_items_repeat_rounds)]
fn comb_summary(source: &Source, m: u32, pass: Pass, k: &mut [u32]) -> Result<bool, Stop>
    ensures asked_for { (kept : Kept) (busy : List ℕ) → Tabled source.now.text.now source.now.kinds.now source.now.mods.now source.now.count
        → Keeps k.old kept busy
        → AskedFor result k.new m busy (ask_walk pass.fuel (decode source.now.text.now) busy kept m) }
    ensures ask_leaves { AskLeaves result k.old k.new }
{
    if pass.fuel == 0 {
        return Ok(false);
    }
    if source.count <= m {
        return Ok(false);
    }
    match summary::state_of(k, m) {
        State::Kept => Ok(true),
        State::Busy => Ok(false),
        State::New => {
            let mut begun = pass;
            begun.fuel = pass.fuel - 1;
            make_summary(source, m, begun, k)
        }
    }
}

// Makes the summary of module m: walks its items with tables of their own, and keeps what its outputs reach.
#[cycle(branch_items_collect_item_collect_items_comb_summary_inst_edges_make_summary_repeat_items_repeat_rounds)]
fn make_summary(source: &Source, m: u32, pass: Pass, k: &mut [u32]) -> Result<bool, Stop>
    ensures asked_for { (kept : Kept) (busy : List ℕ) → Tabled source.now.text.now source.now.kinds.now source.now.mods.now source.now.count
        → Keeps k.old kept busy
        → m < source.now.count → kept_summary kept m ≡ none → has_name m busy ≡ false
        → AskedFor result k.new m busy (ask_walk (suc pass.fuel) (decode source.now.text.now) busy kept m) }
    ensures ask_leaves { AskLeaves result k.old k.new }
{
    if 32768 < source.text.len() {
        graph::clear(k);
        return Err(Stop);
    }
    let mut names = [0u32; 6616];
    let Ok(used) = modules::names_of_module(source.text, source.mods, m, &mut names) else {
        graph::clear(k);
        return Err(Stop);
    };
    summary::begin(k, m);
    let mut g = [0u32; 16898];
    let mut own = [0u32; 1];
    let run = modules::items_of_module(source.text, source.mods, m);
    let ks = places::module_kinds(source.kinds, m);
    let mut pass = pass;
    pass.depth = 32;
    pass.checking = false;
    pass.bound = false;
    pass.used = used;
    collect_items(
        source,
        run,
        places::run_at(source.mods, m),
        pass,
        4096,
        ks,
        &mut names,
        &mut own,
        &mut g,
        k,
    )?;
    summary::summarise(run, ks, &g, k, m)?;
    Ok(true)
}

// Walks the items of module m in its own check, with 4,096 rounds. An accepted text has 32 modules at most.
fn walk_module(
    source: &Source,
    m: u32,
    names: &mut [u32],
    used: usize,
    own: &mut [u32],
    g: &mut [u32],
    k: &mut [u32],
) -> Result<u32, Stop>
    ensures ends { (x : Module) (kept : Kept) → WalkGiven source.now.text.now source.now.kinds.now source.now.mods.now source.now.count m
        names.old used own.old g.old k.old x kept
        → Ends result (mode true x.bound) source.now.text.now own.new g.new k.new [] (own_walk (decode source.now.text.now) x kept) }
    ensures framed { Framed used names.old names.new × RoundsWithin result 4096 }
    ensures walk_leaves { WalkLeaves result true own.old own.new g.old g.new k.old k.new }
    ensures walkable { Walkable (walk_number result) source.now.text.now source.now.count }
{
    if 32768 < source.text.len() {
        places::clear_tables(own, g, k);
        return Err(Stop);
    }
    if 32 < source.count {
        places::clear_tables(own, g, k);
        return Err(Stop);
    }
    let run = modules::items_of_module(source.text, source.mods, m);
    let base = places::run_at(source.mods, m);
    let ks = places::module_kinds(source.kinds, m);
    let bound = places::is_bound(source.mods, m);
    let pass = Pass {
        fuel: source.count + 1,
        depth: 32,
        checking: true,
        bound,
        used,
    };
    collect_items(source, run, base, pass, 4096, ks, names, own, g, k)
}

// Collects module m in its own check: its name table; its own tables and its graph, both empty where the walk begins; and in k, which holds the
// summaries kept so far, those that its instances ask for. With an error every place that is lent to be written is 0 afterwards. `LentAfter`
// says what holds whatever is lent, and what is free then.
pub fn collect_module(
    text: &[u8],
    kinds: &[u8],
    mods: &[u32],
    count: u32,
    m: u32,
    names: &mut [u32],
    own: &mut [u32],
    g: &mut [u32],
    k: &mut [u32],
) -> Result<Collected, Stop>
    ensures collects { (x : Module) (kept : Kept) → ModuleGiven text.now kinds.now mods.now count m
        names.old own.old g.old k.old x kept
        → Collects result text.now names.new own.new g.new k.new x (own_walk (decode text.now) x kept) }
    ensures result_bound { left_of result ≤ 4096 }
    ensures lent_after { LentAfter result text.now mods.now count m names.old own.old g.old k.old
        names.new own.new g.new k.new }
{
    let Ok(used) = modules::names_of_module(text, mods, m, names) else {
        graph::clear(names);
        places::clear_tables(own, g, k);
        return Err(Stop);
    };
    items::reset(own);
    graph::reset(g);
    let source = Source {
        text,
        kinds,
        mods,
        count,
    };
    match walk_module(&source, m, names, used, own, g, k) {
        Ok(left) => Ok(Collected { used, left }),
        Err(e) => {
            graph::clear(names);
            Err(e)
        }
    }
}
