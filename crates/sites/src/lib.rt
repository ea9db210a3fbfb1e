// What is said of outputs, registers and memories of one module: drive sites, pairs of name and block, and what their lines are.
// All tables stand in one lent run of numbers, `own`, with a fixed layout: seven counts, then the rows of each table.
#![tactic(auto)]

mod records;

ghost use Rattle.std.specs.Prelude.{None, ◌≡◌, ◌+◌, ◌-◌, ◌*◌, ◌≤◌, ◌<◌, [], ◌∷◌, ◌++◌, length, get_or, replicate, false};
ghost use Rattle.std.proofs.lemmas.List.Edits.{sets};
ghost use Rattle.spec.specs.Site as site;
ghost use Rattle.sites.specs.declared.Blocks.TheVariants as blocks;
ghost use Rattle.sites.specs.declared.Cover.TheVariants as cover;
ghost use Rattle.spec.specs.Refusal.{has_name};
ghost use Rattle.spec.specs.Block.{has_pair, block_count};
ghost use Rattle.sites.specs.Own.{extent_of, site_of, misuse_of, extent_from, misuse_from, pair_from, row, rows_in, pair_table, site_table, site_from, found_of, value_of, blocks_by, cover_by, range_test, unmarked_from, within, Marked, conflict_of, conflict_row, conflict_rows, conflict_table, conflict_step, with_conflicts, poisoned_names, misuse_poison, row_names, skip_at, site_row, NextSite, Front, Behind, conflicts_found, Shape, pushed, push_answer, first_row, places, run, own_of, added, row_added, pair_row_added, first_added, site_numbers, extent_numbers, misuse_number, add_site, add_pair, add_output, add_reg, add_mem, add_misuse, names, reg_table, mem_table, port_table, misuse_table, storage_of, storage_from, port_of, port_from, misused_of, misused_from};

// How many names there are at most.
const NAMES: usize = 256;

const SITE_LIMIT: usize = 1024;

const PAIR_LIMIT: usize = 512;

// A table: where its count stands, where its rows begin, how many numbers a row has, and how many rows there are at most.
#[derive(Clone, Copy)]
struct Table {
    count: usize,
    base: usize,
    width: usize,
    limit: usize,
}

const SITES: Table = Table {
    count: 0,
    base: 8,
    width: 5,
    limit: SITE_LIMIT,
};

const PAIRS: Table = Table {
    count: 1,
    base: SITES.base + 5 * SITE_LIMIT,
    width: 2,
    limit: PAIR_LIMIT,
};

const OUTPUTS: Table = Table {
    count: 2,
    base: PAIRS.base + 2 * PAIR_LIMIT,
    width: 4,
    limit: NAMES,
};

const REGS: Table = Table {
    count: 3,
    base: OUTPUTS.base + 4 * NAMES,
    width: 2,
    limit: NAMES,
};

const MEMS: Table = Table {
    count: 4,
    base: REGS.base + 2 * NAMES,
    width: 2,
    limit: NAMES,
};

const MISUSES: Table = Table {
    count: 5,
    base: MEMS.base + 2 * NAMES,
    width: 3,
    limit: NAMES,
};

const CONFLICTS: Table = Table {
    count: 6,
    base: MISUSES.base + 3 * NAMES,
    width: 2,
    limit: SITE_LIMIT,
};

// How many numbers hold all the tables.
pub const OWN: usize = CONFLICTS.base + 2 * SITE_LIMIT;

#[derive(Clone, Copy, Debug, PartialEq, Eq)]
pub enum Extent {
    Whole,
    Range { low: u32, high: u32 },
    Dynamic,
    Unknown,
}

#[derive(Clone, Copy, Debug, PartialEq, Eq)]
pub struct Site {
    pub name: u32,
    pub extent: Extent,
    pub start: u32,
}

#[derive(Clone, Copy, Debug, PartialEq, Eq)]
pub enum Misuse {
    Wire,
    Reg,
    Mem,
    Arrow,
}

// A table has no room for one row more.
#[derive(Clone, Copy, Debug, PartialEq, Eq)]
pub struct Full;

// How many rows a table has; a count past the limit counts as the limit.
fn rows_in(own: &[u32], t: Table) -> usize
    requires { t.count < length own.now }
    ensures { (result ≡ rows_in t own.now) × (result ≤ t.limit) }
{
    (own[t.count] as usize).min(t.limit)
}

// The numbers of row i of a table.
fn put_row(own: &mut [u32], t: Table, i: usize, row: &[u32])
    requires { (t.base + t.width * i + t.width ≤ length own.old) × (length row.now ≡ t.width) }
    ensures { own.new ≡ sets own.old (t.base + t.width * i) row.now }
{
    let at = t.base + t.width * i;
    // A row has two to five words. For so few the library's copy is slower than to store them one by one.
    for k in 0..t.width {
        own[at + k] = row[k];
    }
}

// Whether one of the first n rows of a table has a name. A row begins with its name.
fn has_row(own: &[u32], t: Table, n: usize, name: u32) -> bool
    requires { (t.base + t.width * n ≤ length own.now) × (0 < t.width) }
    ensures { result ≡ has_name name (run (λ i. get_or own.now (t.base + t.width * i) 0) 0 n) }
{
    for i in 0..n {
        if own[t.base + t.width * i] == name {
            return true;
        }
    }
    false
}

// Makes all words 0: tables that are empty.
pub fn clear(own: &mut [u32])
    ensures { own.new ≡ replicate (length own.old) 0 }
{
    own.fill(0);
}

// One row more at the end of a table, where there is room.
fn push(own: &mut [u32], t: Table, row: &[u32]) -> Result<(), Full>
    requires { Shape t own.old × (length row.now ≡ t.width) }
    ensures { (own.new ≡ pushed t own.old row.now) × (result ≡ push_answer t own.old) }
{
    let n = rows_in(own, t);
    if t.limit <= n {
        return Err(Full);
    }
    put_row(own, t, n, row);
    own[t.count] = (n + 1) as u32;
    Ok(())
}

// One row more, where no row has its name.
fn push_first(own: &mut [u32], t: Table, row: &[u32])
    requires { Shape t own.old × (length row.now ≡ t.width) }
    ensures { own.new ≡ first_row t own.old row.now }
{
    let n = rows_in(own, t);
    if has_row(own, t, n, row[0]) {
        return;
    }
    let _ = push(own, t, row);
}

// An extent as three numbers.
#[derive(Clone, Copy)]
struct Coded {
    code: u32,
    low: u32,
    high: u32,
}

impl From<Extent> for Coded {
    ghost from_gives = { λ e x. (x.code ∷ x.low ∷ x.high ∷ []) ≡ extent_numbers e };

    fn from(e: Extent) -> Coded {
        match e {
            Extent::Whole => Coded {
                code: 0,
                low: 0,
                high: 0,
            },
            Extent::Range { low, high } => Coded { code: 1, low, high },
            Extent::Dynamic => Coded {
                code: 2,
                low: 0,
                high: 0,
            },
            Extent::Unknown => Coded {
                code: 3,
                low: 0,
                high: 0,
            },
        }
    }
}

// A code past the others stands for Unknown.
impl From<Coded> for Extent {
    ghost from_gives = { λ x e. extent_of e ≡ extent_from x.code x.low x.high };

    #[tactic(auto, unfolding(crate::specs::Own::extent_from))]
    fn from(x: Coded) -> Extent {
        match x.code {
            0 => Extent::Whole,
            1 => Extent::Range {
                low: x.low,
                high: x.high,
            },
            2 => Extent::Dynamic,
            _ => Extent::Unknown,
        }
    }
}

impl From<Misuse> for u32 {
    ghost from_gives = { λ m code. code ≡ misuse_number m };

    fn from(m: Misuse) -> u32 {
        match m {
            Misuse::Wire => 0,
            Misuse::Reg => 1,
            Misuse::Mem => 2,
            Misuse::Arrow => 3,
        }
    }
}

// A number past the others stands for Arrow.
impl From<u32> for Misuse {
    ghost from_gives = { λ code m. misuse_of m ≡ misuse_from code };

    #[tactic(auto, unfolding(crate::specs::Own::misuse_from))]
    fn from(code: u32) -> Misuse {
        match code {
            0 => Misuse::Wire,
            1 => Misuse::Reg,
            2 => Misuse::Mem,
            _ => Misuse::Arrow,
        }
    }
}

// A drive site of an output; one past 1,024 gives Full.
pub fn add_site(own: &mut [u32], s: Site) -> Result<(), Full>
    ensures own_after { length own.old ≡ places → added result (own_of own.new) ≡ add_site (site_of s) (own_of own.old) }
    ensures own_after_2 { added result own.new ≡ row_added site_table own.old (site_numbers s) }
    ensures own_len_unchanged { length own.new ≡ length own.old }
{
    if own.len() != OWN {
        return Err(Full);
    }
    let x = Coded::from(s.extent);
    push(own, SITES, &[s.name, x.code, x.low, x.high, s.start])
}

// An output's first collected line; its width stands at from..to of the text.
pub fn add_output(own: &mut [u32], name: u32, start: u32, from: u32, to: u32)
    ensures own_after { length own.old ≡ places → own_of own.new
        ≡ add_output (record { name = name; start = start; from = from; to = to }) (own_of own.old) }
    ensures own_after_2 { own.new ≡ first_added port_table own.old (name ∷ start ∷ from ∷ to ∷ []) }
    ensures own_len_unchanged { length own.new ≡ length own.old }
{
    if own.len() != OWN {
        return;
    }
    push_first(own, OUTPUTS, &[name, start, from, to]);
}

// A register's first collected line.
pub fn add_reg(own: &mut [u32], name: u32, start: u32)
    ensures own_after { length own.old ≡ places → own_of own.new ≡ add_reg (record { name = name; start = start }) (own_of own.old) }
    ensures own_after_2 { own.new ≡ first_added reg_table own.old (name ∷ start ∷ []) }
    ensures own_len_unchanged { length own.new ≡ length own.old }
{
    if own.len() != OWN {
        return;
    }
    push_first(own, REGS, &[name, start]);
}

// A memory's first collected line.
pub fn add_mem(own: &mut [u32], name: u32, start: u32)
    ensures own_after { length own.old ≡ places → own_of own.new ≡ add_mem (record { name = name; start = start }) (own_of own.old) }
    ensures own_after_2 { own.new ≡ first_added mem_table own.old (name ∷ start ∷ []) }
    ensures own_len_unchanged { length own.new ≡ length own.old }
{
    if own.len() != OWN {
        return;
    }
    push_first(own, MEMS, &[name, start]);
}

// The first misuse of a name, which poisons it.
pub fn add_misuse(own: &mut [u32], name: u32, start: u32, kind: Misuse)
    ensures own_after { length own.old ≡ places → own_of own.new
        ≡ add_misuse (record { name = name; start = start; misuse = misuse_of kind }) (own_of own.old) }
    ensures own_after_2 { own.new ≡ first_added misuse_table own.old (name ∷ start ∷ misuse_number kind ∷ []) }
    ensures own_len_unchanged { length own.new ≡ length own.old }
{
    if own.len() != OWN {
        return;
    }
    push_first(own, MISUSES, &[name, start, u32::from(kind)]);
}

// Whether a pair of name and block is there.
fn has_pair(own: &[u32; OWN], n: usize, name: u32, block: u32) -> bool
    requires { n ≤ 512 }
    ensures { result ≡ has_pair (record { name = name; block = block }) (run (λ i. pair_from (row pair_table own.now i)) 0 n) }
{
    for i in 0..n {
        if own[PAIRS.base + 2 * i] == name && own[PAIRS.base + 2 * i + 1] == block {
            return true;
        }
    }
    false
}

// A pair of name and block, where it is a new one; one past 512 gives Full.
pub fn add_pair(own: &mut [u32], name: u32, block: u32) -> Result<(), Full>
    ensures own_after { length own.old ≡ places → added result (own_of own.new) ≡ add_pair (record { name = name; block = block }) (own_of own.old) }
    ensures own_after_2 { added result own.new ≡ pair_row_added (record { name = name; block = block }) own.old }
    ensures own_len_unchanged { length own.new ≡ length own.old }
{
    let Some(own) = own.as_mut_array::<OWN>() else {
        return Err(Full);
    };
    let n = rows_in(own, PAIRS);
    if has_pair(own, n, name, block) {
        return Ok(());
    }
    push(own, PAIRS, &[name, block])
}

// The site in row i.
fn site_at(own: &[u32; OWN], i: usize) -> Site
    requires { i < 1024 }
    ensures { site_of result ≡ site_from (row site_table own.now i) }
{
    let at = SITES.base + 5 * i;
    let extent = Coded {
        code: own[at + 1],
        low: own[at + 2],
        high: own[at + 3],
    };
    Site {
        name: own[at],
        extent: Extent::from(extent),
        start: own[at + 4],
    }
}

// Whether two extents have a bit in common, as far as that is known.
fn meets(a: Extent, b: Extent) -> bool
    ensures { result ≡ site.meets (extent_of a) (extent_of b) }
{
    match (a, b) {
        (Extent::Unknown, _) | (_, Extent::Unknown) => false,
        (
            Extent::Range { low, high },
            Extent::Range {
                low: from,
                high: to,
            },
        ) => from <= high && low <= to,
        _ => true,
    }
}

// The first row from `from` on that has a site of the name; 1,024 where there is none.
fn next_site(own: &[u32; OWN], from: usize, name: u32) -> usize
    ensures { NextSite name own.now from result }
{
    let n = rows_in(own, SITES);
    for i in from..n {
        if own[SITES.base + 5 * i] == name {
            return i;
        }
    }
    SITE_LIMIT
}

fn no_range(bound: bool) -> Extent
    ensures { extent_of result ≡ site.no_range bound }
{
    if bound {
        return Extent::Dynamic;
    }
    Extent::Unknown
}

// The extent of one bit. Its value v, where it is known, is held as v + 2147483648.
pub fn bit_extent(bound: bool, v: Option<u32>) -> Extent
    ensures { extent_of result ≡ site.bit_extent bound (value_of v) }
{
    let Some(v) = v else {
        return no_range(bound);
    };
    if v < 2147483648 {
        return no_range(bound);
    }
    Extent::Range {
        low: v - 2147483648,
        high: v - 2147483648,
    }
}

// The extent of the bits from high to low.
pub fn range_extent(bound: bool, high: Option<u32>, low: Option<u32>) -> Extent
    ensures { extent_of result ≡ site.range_extent bound (value_of high) (value_of low) }
{
    let Some(high) = high else {
        return no_range(bound);
    };
    let Some(low) = low else {
        return no_range(bound);
    };
    if low < 2147483648 || high < low {
        return no_range(bound);
    }
    Extent::Range {
        low: low - 2147483648,
        high: high - 2147483648,
    }
}

#[derive(Clone, Copy, Debug, PartialEq, Eq)]
pub enum Blocks {
    None,
    One,
    Several,
}

// How many blocks set a name.
fn block_count(own: &[u32; OWN], name: u32) -> usize
    ensures { result ≡ block_count name (own_of own.now).pairs }
{
    let n = rows_in(own, PAIRS);
    let mut k: usize = 0;
    for i in 0..n {
        if own[PAIRS.base + 2 * i] == name {
            k += 1;
        }
    }
    k
}

// Whether a name has no block, one, or several.
pub fn blocks_of(own: &[u32], name: u32) -> Blocks
    ensures value { length own.now ≡ places → result ≡ blocks_by (block_count name (own_of own.now).pairs) }
    ensures value_2 { ¬ (length own.now ≡ places) → result ≡ blocks.None }
{
    let Some(own) = own.as_array::<OWN>() else {
        return Blocks::None;
    };
    match block_count(own, name) {
        0 => Blocks::None,
        1 => Blocks::One,
        _ => Blocks::Several,
    }
}

// What decides an output's coverage.
#[derive(Clone, Copy, Debug, PartialEq, Eq)]
pub enum Cover {
    Never,
    Open,
    Ranges,
}

fn is_range(e: Extent) -> bool
    ensures { result ≡ range_test (extent_of e) }
{
    matches!(e, Extent::Range { .. })
}

// Whether an output has no site, one that is no range, or ranges only.
pub fn cover_of(own: &[u32], name: u32) -> Cover
    ensures value { length own.now ≡ places → result ≡ cover_by (site.sites_of name (own_of own.now).sites) }
    ensures value_2 { ¬ (length own.now ≡ places) → result ≡ cover.Never }
{
    let Some(own) = own.as_array::<OWN>() else {
        return Cover::Never;
    };
    let n = rows_in(own, SITES);
    let mut seen = false;
    for i in 0..n {
        let s = site_at(own, i);
        if s.name != name {
            continue;
        }
        let e = s.extent;
        if !is_range(e) {
            return Cover::Open;
        }
        seen = true;
    }
    if seen {
        return Cover::Ranges;
    }
    Cover::Never
}

// A mark at each place from..end.
fn mark(marks: &mut [u8], from: usize, end: usize)
    requires { (from ≤ end) × (end ≤ length marks.old) }
    ensures { Marked (length marks.old) (within from end) marks.old marks.new }
{
    marks[from..end].fill(1);
}

// A mark at each place below the limit that an extent covers.
fn mark_extent(marks: &mut [u8], limit: usize, e: Extent)
    requires { limit ≤ length marks.old }
    ensures { Marked limit (site.covers (extent_of e)) marks.old marks.new }
{
    match e {
        Extent::Whole => mark(marks, 0, limit),
        Extent::Range { low, high } => {
            let end = (high as usize + 1).min(limit);
            let from = (low as usize).min(end);
            mark(marks, from, end);
        }
        Extent::Dynamic | Extent::Unknown => {}
    }
}

// A mark at each place below the limit that a site of the name covers.
fn mark_sites(own: &[u32; OWN], name: u32, marks: &mut [u8], limit: usize)
    requires { limit ≤ length marks.old }
    ensures { Marked limit (site.covered (site.sites_of name (own_of own.now).sites)) marks.old marks.new }
{
    let n = rows_in(own, SITES);
    for i in 0..n {
        let s = site_at(own, i);
        if s.name == name {
            mark_extent(marks, limit, s.extent);
        }
    }
}

// The first place below the limit that has no mark.
fn first_unmarked(marks: &[u8], limit: usize) -> Option<u32>
    requires { (limit ≤ length marks.now) × (limit ≤ 4096) }
    ensures { found_of result ≡ unmarked_from marks.now 0 limit }
{
    for b in 0..limit {
        if marks[b] != 1 {
            return Some(b as u32);
        }
    }
    None
}

// The first bit below the limit that no site of the name covers; there are N marks.
fn gap_below<const N: usize>(own: &[u32; OWN], name: u32, limit: usize) -> Option<u32>
    requires { (limit ≤ N) × (N ≤ 4096) }
    ensures { found_of result ≡ site.gap_from (site.sites_of name (own_of own.now).sites) 0 limit }
{
    let mut marks = [0u8; N];
    mark_sites(own, name, &mut marks, limit);
    first_unmarked(&marks, limit)
}

// The first of the lowest min(width, 4,096) bits that no site of the name covers. Few bits have few marks, which are sooner cleared.
pub fn first_gap(own: &[u32], name: u32, width: u32) -> Option<u32>
    ensures result_value { length own.now ≡ places → found_of result ≡ site.first_gap (site.sites_of name (own_of own.now).sites) width }
    ensures value { ¬ (length own.now ≡ places) → result ≡ None }
{
    let own = own.as_array::<OWN>()?;
    let limit = (width as usize).min(4096);
    if limit <= 64 {
        return gap_below::<64>(own, name, limit);
    }
    gap_below::<4096>(own, name, limit)
}

// Whether a conflict goes before another: by START, then by name.
fn conflict_earlier(start: u32, name: u32, s: u32, n: u32) -> bool
    ensures { result ≡ site.conflict_before (conflict_of start name) (conflict_of s n) }
{
    (start, name) < (s, n)
}

// The place of a conflict among the first n.
fn conflict_place(own: &[u32; OWN], n: usize, start: u32, name: u32) -> usize
    requires { n ≤ 1024 }
    ensures { (result ≤ n) × (run (conflict_row own.now) 0 result ++ (conflict_of start name ∷ run (conflict_row own.now) result (n - result))
        ≡ site.insert_conflict (conflict_of start name) (run (conflict_row own.now) 0 n)) }
{
    for i in 0..n {
        let at = CONFLICTS.base + 2 * i;
        if conflict_earlier(start, name, own[at + 1], own[at]) {
            return i;
        }
    }
    n
}

// One conflict more, in its place.
fn insert_conflict(own: &mut [u32; OWN], start: u32, name: u32)
    requires { rows_in conflict_table own.old < 1024 }
    ensures { Front own.old own.new
        × (conflict_rows own.new ≡ site.insert_conflict (conflict_of start name) (conflict_rows own.old))
        × Behind own.old own.new }
{
    let n = rows_in(own, CONFLICTS);
    let place = conflict_place(own, n, start, name);
    let mut a = name;
    let mut s = start;
    for i in place..n {
        let at = CONFLICTS.base + 2 * i;
        let b = own[at];
        let t = own[at + 1];
        put_row(own, CONFLICTS, i, &[a, s]);
        a = b;
        s = t;
    }
    let _ = push(own, CONFLICTS, &[a, s]);
}

// Whether a name has a misuse.
fn misused(own: &[u32; OWN], name: u32) -> bool
    ensures { result ≡ has_name name (misuse_poison own.now) }
{
    let n = rows_in(own, MISUSES);
    has_row(own, MISUSES, n, name)
}

// Whether a name has a conflict in the table.
fn conflicted(own: &[u32; OWN], name: u32) -> bool
    ensures { result ≡ has_name name (row_names conflict_table own.now) }
{
    let n = rows_in(own, CONFLICTS);
    has_row(own, CONFLICTS, n, name)
}

// Whether a name is poisoned, by a misuse or a conflict.
pub fn poisoned(own: &[u32], name: u32) -> bool
    ensures value { length own.now ≡ places → result ≡ has_name name (poisoned_names (own_of own.now)) }
    ensures value_2 { ¬ (length own.now ≡ places) → result ≡ false }
{
    let Some(own) = own.as_array::<OWN>() else {
        return false;
    };
    conflicted(own, name) || misused(own, name)
}

// Whether a site before row k has the name, or a misuse.
fn seen_before(own: &[u32; OWN], k: usize, name: u32) -> bool
    requires { k ≤ 1024 }
    ensures { result ≡ has_name name (skip_at (misuse_poison own.now) (site_row own.now) k) }
{
    for i in (0..k).rev() {
        if own[SITES.base + 5 * i] == name {
            return true;
        }
    }
    misused(own, name)
}

// The START of the first later site of a name that meets an earlier one, by a run that has room for every site of the table.
fn first_conflict(own: &[u32; OWN], name: u32) -> Option<u32>
    ensures { found_of result ≡ site.first_conflict [] (site.sites_of name (own_of own.now).sites) }
{
    let n = rows_in(own, SITES);
    if n <= 64 {
        return records::conflict_of_name::<64>(own, name);
    }
    records::conflict_of_name::<1024>(own, name)
}

// The conflict of the name of row k, where that row is the name's first. A name with one site has none, and no run is filled for it.
fn take_conflict(own: &mut [u32; OWN], k: usize)
    requires { (k < 1024) × (rows_in conflict_table own.old < 1024) }
    ensures { Front own.old own.new
        × (conflict_rows own.new ≡ conflict_step own.old k (conflict_rows own.old))
        × Behind own.old own.new }
{
    let site = site_at(own, k);
    let name = site.name;
    if seen_before(own, k, name) {
        return;
    }
    if SITE_LIMIT <= next_site(own, k + 1, name) {
        return;
    }
    if let Some(start) = first_conflict(own, name) {
        insert_conflict(own, start, name);
    }
}

// The conflicts of the names that are not misused, by START, then by name, into their table. Every other word stays.
pub fn find_conflicts(own: &mut [u32])
    ensures own_after { length own.old ≡ places → own_of own.new ≡ with_conflicts (site.conflicts (misuse_poison own.old)
        (own_of own.old).sites (own_of own.old).sites) (own_of own.old) }
    ensures front { Front own.old own.new × (¬ (length own.old ≡ places) → own.new ≡ own.old) }
    ensures own_len_unchanged { length own.new ≡ length own.old }
    ensures own_after_2 { own.new ≡ conflicts_found own.old }
{
    let Some(own) = own.as_mut_array::<OWN>() else {
        return;
    };
    own[CONFLICTS.count] = 0;
    let n = rows_in(own, SITES);
    for k in (0..n).rev() {
        take_conflict(own, k);
    }
}

// A name and a START.
#[derive(Clone, Copy, Debug, PartialEq, Eq)]
pub struct Line {
    pub name: u32,
    pub start: u32,
}

// An output's first line; its width stands at from..to of the text.
#[derive(Clone, Copy, Debug, PartialEq, Eq)]
pub struct OutputLine {
    pub name: u32,
    pub start: u32,
    pub from: u32,
    pub to: u32,
}

#[derive(Clone, Copy, Debug, PartialEq, Eq)]
pub struct MisusedLine {
    pub name: u32,
    pub start: u32,
    pub kind: Misuse,
}

// How many rows a table has; none where the slice is of another length.
fn count_of(own: &[u32], t: Table) -> usize
    requires { t.count < places }
    ensures value { length own.now ≡ places → result ≡ rows_in t own.now }
    ensures value_2 { ¬ (length own.now ≡ places) → result ≡ 0 }
    ensures upper_bound { result ≤ t.limit }
{
    if own.len() != OWN {
        return 0;
    }
    rows_in(own, t)
}

// The name and START of row i of a table; zeros where there is no such row.
fn line_at(own: &[u32], t: Table, i: usize) -> Line
    requires { (t.base + t.width * t.limit ≤ places) × (1 < t.width) }
    ensures result_value { length own.now ≡ places → i < t.limit → storage_of result ≡ storage_from (row t own.now i) }
    ensures result_value_2 { ¬ (length own.now ≡ places) → storage_of result ≡ storage_from [] }
    ensures result_value_3 { ¬ (i < t.limit) → storage_of result ≡ storage_from [] }
{
    if own.len() != OWN || t.limit <= i {
        return Line { name: 0, start: 0 };
    }
    let at = t.base + t.width * i;
    Line {
        name: own[at],
        start: own[at + 1],
    }
}

// How many outputs there are.
pub fn output_count(own: &[u32]) -> usize
    ensures value { length own.now ≡ places → result ≡ rows_in port_table own.now }
    ensures value_2 { ¬ (length own.now ≡ places) → result ≡ 0 }
    ensures upper_bound { result ≤ names }
{
    count_of(own, OUTPUTS)
}

// How many registers there are.
pub fn reg_count(own: &[u32]) -> usize
    ensures value { length own.now ≡ places → result ≡ rows_in reg_table own.now }
    ensures value_2 { ¬ (length own.now ≡ places) → result ≡ 0 }
    ensures upper_bound { result ≤ names }
{
    count_of(own, REGS)
}

// How many memories there are.
pub fn mem_count(own: &[u32]) -> usize
    ensures value { length own.now ≡ places → result ≡ rows_in mem_table own.now }
    ensures value_2 { ¬ (length own.now ≡ places) → result ≡ 0 }
    ensures upper_bound { result ≤ names }
{
    count_of(own, MEMS)
}

// How many misused names there are.
pub fn misuse_count(own: &[u32]) -> usize
    ensures value { length own.now ≡ places → result ≡ rows_in misuse_table own.now }
    ensures value_2 { ¬ (length own.now ≡ places) → result ≡ 0 }
    ensures upper_bound { result ≤ names }
{
    count_of(own, MISUSES)
}

// How many conflicts there are.
pub fn conflict_count(own: &[u32]) -> usize
    ensures value { length own.now ≡ places → result ≡ rows_in conflict_table own.now }
    ensures value_2 { ¬ (length own.now ≡ places) → result ≡ 0 }
    ensures upper_bound { result ≤ 1024 }
{
    count_of(own, CONFLICTS)
}

// The register in row i.
pub fn reg_at(own: &[u32], i: usize) -> Line
    ensures result_value { length own.now ≡ places → i < names → storage_of result ≡ storage_from (row reg_table own.now i) }
    ensures result_value_2 { ¬ (length own.now ≡ places) → storage_of result ≡ storage_from [] }
    ensures result_value_3 { ¬ (i < names) → storage_of result ≡ storage_from [] }
{
    line_at(own, REGS, i)
}

// The memory in row i.
pub fn mem_at(own: &[u32], i: usize) -> Line
    ensures result_value { length own.now ≡ places → i < names → storage_of result ≡ storage_from (row mem_table own.now i) }
    ensures result_value_2 { ¬ (length own.now ≡ places) → storage_of result ≡ storage_from [] }
    ensures result_value_3 { ¬ (i < names) → storage_of result ≡ storage_from [] }
{
    line_at(own, MEMS, i)
}

// The conflict in row i.
pub fn conflict_at(own: &[u32], i: usize) -> Line
    ensures result_value { length own.now ≡ places → i < 1024 → storage_of result ≡ storage_from (row conflict_table own.now i) }
    ensures result_value_2 { ¬ (length own.now ≡ places) → storage_of result ≡ storage_from [] }
    ensures result_value_3 { ¬ (i < 1024) → storage_of result ≡ storage_from [] }
{
    line_at(own, CONFLICTS, i)
}

// The output in row i.
pub fn output_at(own: &[u32], i: usize) -> OutputLine
    ensures result_value { length own.now ≡ places → i < names → port_of result ≡ port_from (row port_table own.now i) }
    ensures result_value_2 { ¬ (length own.now ≡ places) → port_of result ≡ port_from [] }
    ensures result_value_3 { ¬ (i < names) → port_of result ≡ port_from [] }
{
    if own.len() != OWN || NAMES <= i {
        return OutputLine {
            name: 0,
            start: 0,
            from: 0,
            to: 0,
        };
    }
    let at = OUTPUTS.base + 4 * i;
    OutputLine {
        name: own[at],
        start: own[at + 1],
        from: own[at + 2],
        to: own[at + 3],
    }
}

// The misuse in row i.
pub fn misuse_at(own: &[u32], i: usize) -> MisusedLine
    ensures result_value { length own.now ≡ places → i < names → misused_of result ≡ misused_from (row misuse_table own.now i) }
    ensures result_value_2 { ¬ (length own.now ≡ places) → misused_of result ≡ misused_from [] }
    ensures result_value_3 { ¬ (i < names) → misused_of result ≡ misused_from [] }
{
    if own.len() != OWN || NAMES <= i {
        return MisusedLine {
            name: 0,
            start: 0,
            kind: Misuse::Wire,
        };
    }
    let at = MISUSES.base + 3 * i;
    MisusedLine {
        name: own[at],
        start: own[at + 1],
        kind: Misuse::from(own[at + 2]),
    }
}
