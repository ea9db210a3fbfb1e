// The whole check: each module in order, its reports counted first and then written; the answer; the lent working slices zero.
ghost use Rattle.std.specs.Prelude.{◌≡◌, [], Err, length};
ghost use Rattle.spec.specs.Bytes.{Bytes};
ghost use Rattle.spec.specs.Syntax.{Module};
ghost use Rattle.spec.specs.Refusal.{decode};
ghost use Rattle.spec.specs.Summary.{Kept};
ghost use Rattle.spec.specs.Check.{check_design, answer_checked, too_short, check_call};
ghost use Rattle.spec.specs.Check as check;
ghost use Rattle.walk.specs.Walk.{check_one, check_all};
ghost use Rattle.summary.specs.Keeps.{Keeps};
ghost use Rattle.collect.specs.Cycle.{Tabled};
ghost use Rattle.drivers.specs.declared.check.Refusal.TheVariants.{Limit};
ghost use Rattle.drivers.specs.Check.{Enough, Checking, Tallied, FewRounds, first_place, answer_of, answer_for, refusal_of, lent_places, exit_of, slices};

use crate::emit::Place;
use crate::groups;
use edges::Stop;
use lines::tables::ReadError;
use lines::{reader, tables};
use steps::modules;

// An accepted text: its bytes, the kinds of its names, where its modules lie, and how many there are.
#[derive(Clone, Copy)]
struct Source<'a> {
    text: &'a [u8],
    kinds: &'a [u8],
    mods: &'a [u32],
    count: u32,
}

// What the check of a module, or of several, gives: the next place and the rounds taken.
#[derive(Clone, Copy)]
struct Checked {
    next: Place,
    rounds: u32,
}

// What is answered of an accepted text: the bytes written, the reports, the rounds.
#[derive(Clone, Copy)]
struct Accepted {
    bytes: usize,
    reports: usize,
    rounds: u32,
}

// Why nothing is reported: the text is refused, 1 to 7; a limit is passed or a constant is outside INT, 20; the buffer is too short, 21.
#[derive(Clone, Copy, Debug, PartialEq, Eq)]
enum Refusal {
    Text(lines::read::Refusal),
    Limit,
    Room,
}

impl From<Stop> for Refusal {
    ghost from_gives = { λ _ e. e ≡ Limit };

    fn from(_: Stop) -> Refusal {
        Refusal::Limit
    }
}

// A table that is too short for a limit is refused as the limit is.
impl From<ReadError> for Refusal {
    ghost from_gives = { λ r e. e ≡ refusal_of r };

    fn from(r: ReadError) -> Refusal {
        match r {
            ReadError::Short => Refusal::Limit,
            ReadError::Refused(text) => Refusal::Text(text),
        }
    }
}

// 01's answer: 0 or the number of a refusal, its line, the bytes written, the reports, the rounds.
#[derive(Clone, Copy, Debug, PartialEq, Eq)]
pub struct Answer {
    pub number: u32,
    pub line: u32,
    pub bytes: usize,
    pub reports: usize,
    pub rounds: u32,
}

// The own check of module m: what its lines collect, then its reports behind the place p.
fn check_module_drivers(
    source: &Source,
    m: u32,
    names: &mut [u32],
    own: &mut [u32],
    g: &mut [u32],
    w: &mut [u32],
    k: &mut [u32],
    buf: &mut [u8],
    p: Place,
    write: bool,
) -> Result<Checked, Stop>
    ensures tallied { (x : Module) (kept : Kept) → Checking source.now.text.now source.now.kinds.now source.now.mods.now source.now.count m
        names.old own.old g.old w.old k.old x kept
        → Tallied result write buf.old p buf.new k.new (check_one (decode source.now.text.now) kept m x) }
    ensures few_rounds { FewRounds result }
{
    let c = collect::collect_module(
        source.text,
        source.kinds,
        source.mods,
        source.count,
        m,
        names,
        own,
        g,
        k,
    )?;
    let next = groups::report_module(source.text, names, c.used, own, g, w, m, buf, p, write)?;
    Ok(Checked {
        next,
        rounds: 4096 - c.left,
    })
}

// Every module of an accepted text in order, to the first that gives an error, from the summaries that are kept already.
fn check_modules(
    source: &Source,
    names: &mut [u32],
    own: &mut [u32],
    g: &mut [u32],
    w: &mut [u32],
    k: &mut [u32],
    buf: &mut [u8],
    write: bool,
) -> Result<Checked, Stop>
    ensures { (kept : Kept) → Tabled source.now.text.now source.now.kinds.now source.now.mods.now source.now.count
        → Enough names.old own.old g.old w.old k.old
        → Keeps k.old kept []
        → Tallied result write buf.old first_place buf.new k.new
        (check_all (decode source.now.text.now) kept 0 (decode source.now.text.now)) }
{
    // No accepted text has more: this only bounds the sum of the rounds.
    if 32 < source.count {
        return Err(Stop);
    }
    let mut q = Place { at: 0, reports: 0 };
    let mut rounds: u32 = 0;
    for m in 0..source.count {
        let one = check_module_drivers(source, m, names, own, g, w, k, buf, q, write)?;
        q = one.next;
        rounds += one.rounds;
    }
    Ok(Checked { next: q, rounds })
}

// Behind a refusal's line are zeros.
fn refuse(number: u32, line: u32) -> Answer
    ensures { (buffer : Bytes) → answer_of result buffer ≡ check.refuse number line buffer }
{
    Answer {
        number,
        line,
        bytes: 0,
        reports: 0,
        rounds: 0,
    }
}

// What a refusal answers.
fn refused(r: Refusal) -> Answer
    ensures { (buffer : Bytes) → answer_of result buffer ≡ answer_for (Err r) buffer }
{
    match r {
        Refusal::Text(text) => refuse(u32::from(text.fault), text.line),
        Refusal::Limit => refuse(20, 0),
        Refusal::Room => refuse(21, 0),
    }
}

// The five numbers of an answer.
fn as_answer(r: Result<Accepted, Refusal>) -> Answer
    ensures { (buffer : Bytes) → answer_of result buffer ≡ answer_for r buffer }
{
    match r {
        Ok(a) => Answer {
            number: 0,
            line: 0,
            bytes: a.bytes,
            reports: a.reports,
            rounds: a.rounds,
        },
        Err(e) => refused(e),
    }
}

// An accepted text: 20, 21, or its reports, written once it is known that they fit, with the summaries that were made to count them.
fn check_accepted(
    source: &Source,
    names: &mut [u32],
    own: &mut [u32],
    g: &mut [u32],
    w: &mut [u32],
    k: &mut [u32],
    report: &mut [u8],
) -> Result<Accepted, Refusal>
    ensures { Tabled source.now.text.now source.now.kinds.now source.now.mods.now source.now.count
        → Enough names.old own.old g.old w.old k.old
        → answer_for result report.new ≡ answer_checked (check_design (decode source.now.text.now)) report.old }
{
    summary::reset(k);
    let counted = check_modules(source, names, own, g, w, k, report, false)?;
    let bytes = counted.next.at;
    let reports = counted.next.reports;
    let rounds = counted.rounds;
    if report.len() < bytes {
        return Err(Refusal::Room);
    }
    if reports == 0 {
        return Ok(Accepted {
            bytes: 0,
            reports: 0,
            rounds,
        });
    }
    check_modules(source, names, own, g, w, k, report, true)?;
    Ok(Accepted {
        bytes,
        reports,
        rounds,
    })
}

// Is a working slice too short for the limit that it serves?
fn is_short(
    kinds: usize,
    mods: usize,
    names: usize,
    own: usize,
    g: usize,
    w: usize,
    k: usize,
) -> bool
    ensures { result ≡ too_short (lent_places kinds mods names own g w k) }
{
    if kinds < tables::KINDS {
        return true;
    }
    if mods < tables::MODS {
        return true;
    }
    if names < modules::NAMES {
        return true;
    }
    if own < sites::OWN {
        return true;
    }
    if g < graph::GRAPH {
        return true;
    }
    if w < graph::WORK {
        return true;
    }
    k < summary::KEPT
}

// Reads the text and checks it. The working slices hold anything afterwards.
fn check_text(
    text: &[u8],
    report: &mut [u8],
    kinds: &mut [u8],
    mods: &mut [u32],
    names: &mut [u32],
    own: &mut [u32],
    g: &mut [u32],
    w: &mut [u32],
    k: &mut [u32],
) -> Result<Accepted, Refusal>
    ensures { answer_for result report.new ≡ check.check_drivers
        (lent_places (length kinds.old) (length mods.old) (length names.old) (length own.old)
        (length g.old) (length w.old) (length k.old))
        text.now report.old }
{
    if is_short(
        kinds.len(),
        mods.len(),
        names.len(),
        own.len(),
        g.len(),
        w.len(),
        k.len(),
    ) {
        return Err(Refusal::Limit);
    }
    let count = reader::read_text(text, kinds, mods)?;
    let source = Source {
        text,
        kinds,
        mods,
        count,
    };
    check_accepted(&source, names, &mut own[..sites::OWN], g, w, k, report)
}

// The check of a text: its answer and its reports, by way of seven working slices, which may hold anything and are zero afterwards.
pub fn check_drivers(
    text: &[u8],
    report: &mut [u8],
    kinds: &mut [u8],
    mods: &mut [u32],
    names: &mut [u32],
    own: &mut [u32],
    g: &mut [u32],
    w: &mut [u32],
    k: &mut [u32],
) -> Answer
    ensures { exit_of result report.new kinds.new mods.new names.new own.new g.new
        w.new k.new
        ≡ check_call (slices kinds.old mods.old names.old own.old g.old w.old k.old)
        text.now report.old }
{
    let checked = check_text(text, report, kinds, mods, names, own, g, w, k);
    kinds.fill(0);
    mods.fill(0);
    names.fill(0);
    own.fill(0);
    g.fill(0);
    w.fill(0);
    k.fill(0);
    as_answer(checked)
}
