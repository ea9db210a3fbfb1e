// What a collected line adds to the tables of its module's own check.
#![tactic(auto)]

ghost use Rattle.std.specs.Prelude.{◌≡◌, true, length, is_ok};
ghost use Rattle.spec.specs.Bytes.{Bytes};
ghost use Rattle.spec.specs.Decode.{decode_expr};
ghost use Rattle.spec.specs.Value.{value};
ghost use Rattle.consteval.specs.Worth.{names_of, worth};
ghost use Rattle.lines.specs.Parts.{piece};
ghost use Rattle.sites.specs.Own.{places};
ghost use Rattle.walk.specs.Walk.{no_own};
ghost use Rattle.items.specs.Held.{Held};
ghost use Rattle.edges.specs.Lines.{names_in};
ghost use Rattle.edges.specs.Total.{parts_behind};
ghost use Rattle.items.specs.Added.{OwnLeaves, port_added, reg_added, mem_added, output_driven, drive_added, set_added, default_added, stmt_added, all_added, on_added, line_added};
ghost use Rattle.items.specs.Lines.{emptied, number_at, named_at, index_at, ExtentIs, says_outside, index_outside, SetAfter, DefaultAfter, StmtAfter, StmtsAfter, PortLine, RegLine, MemLine, DriveOutput, DriveLine, OnLine, OwnLine, drive_outside};

use consteval::{Outside, Value};
use edges::{Scope, Stop};
use lines::kinds::{Kind, kind_at};
use lines::{numbers, parts};
use sites::{Extent, Full, Misuse, Site};

// Empties the tables before the first item of a module: the counts become 0, and every other word stays.
pub fn reset(own: &mut [u32])
    ensures own_after { own.new ≡ emptied own.old }
    ensures held { length own.old ≡ places → (text : Bytes) → Held text own.new no_own }
{
    let n = own.len().min(7);
    own[..n].fill(0);
}

// The number behind the byte at `before`, up to `end`.
fn number(x: &[u8], before: usize, end: usize) -> u32
    ensures { result ≡ number_at x.now before end }
{
    let v = numbers::value(parts::between(x, before, end));
    if 4294967295 < v {
        return 0;
    }
    v as u32
}

// A name and a START, and where they end.
#[derive(Clone, Copy)]
struct Named {
    name: u32,
    start: u32,
    end: usize,
}

// The name and the START that stand behind the byte at `before`.
fn named_at(x: &[u8], before: usize) -> Named
    ensures { result ≡ named_at x.now before }
{
    if !parts::more(x, before) {
        return Named {
            name: 0,
            start: 0,
            end: before,
        };
    }
    let a = parts::part_end(x, before + 1);
    if !parts::more(x, a) {
        return Named {
            name: 0,
            start: 0,
            end: before,
        };
    }
    let b = parts::part_end(x, a + 1);
    let name = number(x, before, a);
    let start = number(x, a, b);
    Named {
        name,
        start,
        end: b,
    }
}

// The constant behind the byte at `before`, up to `end`.
fn constant_at(x: &[u8], before: usize, end: usize, depth: u32, names: &[u32], used: usize) -> Value
    ensures { worth result ≡ value (names_of names.now used) (decode_expr depth (piece x.now before end)) }
{
    consteval::eval(parts::between(x, before, end), depth, names, used)
}

// An output's line; its width stands in the text, in which the line begins at `base`. A `port in` line adds nothing.
fn port_line(x: &[u8], base: u32, own: &mut [u32])
    ensures port_line { PortLine x.now base own.old own.new }
    ensures own_len_unchanged { length own.new ≡ length own.old }
    ensures own_after { own.new ≡ port_added x.now base own.old }
{
    if parts::byte(x, 6) != b'o' {
        return;
    }
    if !parts::more(x, 9) {
        return;
    }
    let a = parts::part_end(x, 10);
    if !parts::more(x, a) {
        return;
    }
    let b = parts::part_end(x, a + 1);
    if !parts::more(x, b) {
        return;
    }
    let c = parts::part_end(x, b + 1);
    if ((4294967295 - base) as usize) < b {
        return;
    }
    let name = number(x, 9, a);
    let start = number(x, b, c);
    sites::add_output(own, name, start, base + (a + 1) as u32, base + b as u32);
}

fn reg_line(x: &[u8], own: &mut [u32])
    ensures reg_line { RegLine x.now own.old own.new }
    ensures own_len_unchanged { length own.new ≡ length own.old }
    ensures own_after { own.new ≡ reg_added x.now own.old }
{
    let l = named_at(x, 4);
    sites::add_reg(own, l.name, l.start);
}

fn mem_line(x: &[u8], own: &mut [u32])
    ensures mem_line { MemLine x.now own.old own.new }
    ensures own_len_unchanged { length own.new ≡ length own.old }
    ensures own_after { own.new ≡ mem_added x.now own.old }
{
    let l = named_at(x, 4);
    sites::add_mem(own, l.name, l.start);
}

// The extent of an LV, by the indexes behind its START, which ends at `end`.
fn lvalue_extent(
    lv: &[u8],
    end: usize,
    bound: bool,
    depth: u32,
    names: &[u32],
    used: usize,
) -> Result<Extent, Outside>
    ensures extent_is { ExtentIs result bound (names_of names.now used) (index_at lv.now end depth) }
    ensures result_value { says_outside result ≡ index_outside lv.now end depth (names_of names.now used) }
{
    if !parts::more(lv, end) {
        return Ok(Extent::Whole);
    }
    let a = parts::part_end(lv, end + 1);
    let h = constant_at(lv, end, a, depth, names, used)?;
    if !parts::more(lv, a) {
        let e = sites::bit_extent(bound, h);
        return Ok(e);
    }
    let b = parts::part_end(lv, a + 1);
    let l = constant_at(lv, a, b, depth, names, used)?;
    let e = sites::range_extent(bound, h, l);
    Ok(e)
}

// A driven output: a site, unless an index is outside INT or there are too many.
fn drive_output(
    lv: &[u8],
    l: Named,
    bound: bool,
    depth: u32,
    names: &[u32],
    used: usize,
    own: &mut [u32],
) -> Result<(), Stop>
    ensures drive_output { DriveOutput (is_ok result) lv.now l bound depth (names_of names.now used) own.old own.new }
    ensures own_len_unchanged { length own.new ≡ length own.old }
    ensures own_leaves { OwnLeaves (is_ok result) (output_driven lv.now l bound depth (names_of names.now used) own.old) own.new }
{
    let end = l.end;
    let Ok(extent) = lvalue_extent(lv, end, bound, depth, names, used) else {
        sites::clear(own);
        return Err(Stop);
    };
    let site = Site {
        name: l.name,
        extent,
        start: l.start,
    };
    match sites::add_site(own, site) {
        Ok(()) => Ok(()),
        Err(Full) => {
            sites::clear(own);
            Err(Stop)
        }
    }
}

// A driven name: a site of an output, or the misuse of a wire, a register or a memory.
fn drive(x: &[u8], bound: bool, depth: u32, scope: Scope<'_>, own: &mut [u32]) -> Result<(), Stop>
    ensures drive_line { DriveLine (is_ok result) x.now bound depth scope.entry.kinds.now (names_in scope.entry) own.old own.new }
    ensures own_len_unchanged { length own.new ≡ length own.old }
    ensures own_leaves { OwnLeaves (is_ok result) (drive_added x.now bound depth scope.entry.kinds.now (names_in scope.entry) own.old) own.new }
{
    let lv = parts::between(x, 6, parts::part_end(x, 7));
    let l = named_at(lv, 3);
    let Some(kind) = kind_at(scope.kinds, l.name as usize) else {
        return Ok(());
    };
    match kind {
        Kind::Out => return drive_output(lv, l, bound, depth, scope.names, scope.used, own),
        Kind::Wire => sites::add_misuse(own, l.name, l.start, Misuse::Wire),
        Kind::Reg => sites::add_misuse(own, l.name, l.start, Misuse::Reg),
        Kind::Mem => sites::add_misuse(own, l.name, l.start, Misuse::Mem),
        Kind::In | Kind::Inst => {}
    }
    Ok(())
}

// `set`: a block of a register or a memory; an arrow to a wire or an output.
fn set_stmt(s: &[u8], block: u32, kinds: &[u8], own: &mut [u32]) -> Result<(), Stop>
    ensures set_after { SetAfter (is_ok result) s.now block kinds.now own.old own.new }
    ensures own_len_unchanged { length own.new ≡ length own.old }
    ensures own_leaves { OwnLeaves (is_ok result) (set_added block kinds.now s.now own.old) own.new }
{
    let l = named_at(s, 4);
    let Some(kind) = kind_at(kinds, l.name as usize) else {
        return Ok(());
    };
    match kind {
        Kind::Out | Kind::Wire => {
            sites::add_misuse(own, l.name, l.start, Misuse::Arrow);
            Ok(())
        }
        Kind::Reg | Kind::Mem => match sites::add_pair(own, l.name, block) {
            Ok(()) => Ok(()),
            Err(Full) => {
                sites::clear(own);
                Err(Stop)
            }
        },
        Kind::In | Kind::Inst => Ok(()),
    }
}

// `default`: a block of a register.
fn default_stmt(s: &[u8], block: u32, kinds: &[u8], own: &mut [u32]) -> Result<(), Stop>
    ensures default_after { DefaultAfter (is_ok result) s.now block kinds.now own.old own.new }
    ensures own_len_unchanged { length own.new ≡ length own.old }
    ensures own_leaves { OwnLeaves (is_ok result) (default_added block kinds.now s.now own.old) own.new }
{
    let n = number(s, 8, parts::part_end(s, 9));
    if kind_at(kinds, n as usize) != Some(Kind::Reg) {
        return Ok(());
    }
    match sites::add_pair(own, n, block) {
        Ok(()) => Ok(()),
        Err(Full) => {
            sites::clear(own);
            Err(Stop)
        }
    }
}

// One statement of a block, by the first byte of its word.
#[cycle(block_stmt_block_stmts)]
fn block_stmt(s: &[u8], block: u32, depth: u32, kinds: &[u8], own: &mut [u32]) -> Result<(), Stop>
    ensures stmt_after { StmtAfter (is_ok result) s.now block depth kinds.now own.old own.new }
    ensures own_len_unchanged { length own.new ≡ length own.old }
    ensures own_leaves { OwnLeaves (is_ok result) (stmt_added block kinds.now depth s.now own.old) own.new }
{
    if depth == 0 {
        return Ok(());
    }
    let c = parts::byte(s, 1);
    if c == b's' {
        return set_stmt(s, block, kinds, own);
    }
    if c == b'd' {
        return default_stmt(s, block, kinds, own);
    }
    if c == b'l' {
        return block_stmts(s, 5, block, depth - 1, kinds, own);
    }
    let a = parts::part_end(s, 6);
    if !parts::more(s, a) {
        return Ok(());
    }
    block_stmts(parts::between(s, 5, a), 5, block, depth - 1, kinds, own)?;
    let b = parts::part_end(s, a + 1);
    block_stmts(parts::between(s, a, b), 5, block, depth - 1, kinds, own)
}

// The statements behind the part that ends at `end`, in order.
#[cycle(block_stmt_block_stmts)]
fn block_stmts(
    s: &[u8],
    end: usize,
    block: u32,
    depth: u32,
    kinds: &[u8],
    own: &mut [u32],
) -> Result<(), Stop>
    ensures stmts_after { StmtsAfter (is_ok result) s.now end block depth kinds.now own.old own.new }
    ensures own_len_unchanged { length own.new ≡ length own.old }
    ensures own_leaves { OwnLeaves (is_ok result) (all_added (stmt_added block kinds.now depth) (parts_behind s.now end) own.old) own.new }
{
    let mut e = end;
    while parts::more(s, e) {
        let a = parts::part_end(s, e + 1);
        block_stmt(parts::between(s, e, a), block, depth, kinds, own)?;
        e = a;
    }
    Ok(())
}

// The statements of an `on` line: pairs of name and block, and arrows to what is no register or memory.
fn on_block(x: &[u8], depth: u32, kinds: &[u8], own: &mut [u32]) -> Result<(), Stop>
    ensures on_line { OnLine (is_ok result) x.now depth kinds.now own.old own.new }
    ensures own_len_unchanged { length own.new ≡ length own.old }
    ensures own_leaves { OwnLeaves (is_ok result) (on_added x.now depth kinds.now own.old) own.new }
{
    let a = parts::part_end(x, 4);
    let block = number(x, 3, a);
    block_stmts(x, a, block, depth, kinds, own)
}

// What the collected line x adds to the tables of its module's own check, by the first byte of its word; the line begins at `base` of
// the text. With an error, which says that a constant is outside INT or a limit is passed, the tables are cleared. Nothing is left free: whatever is
// lent, `OwnLeaves` says the answer and every word; `OwnLine` says what that means where x shows a line and the words hold tables.
pub fn own_line(
    x: &[u8],
    base: u32,
    bound: bool,
    depth: u32,
    scope: Scope<'_>,
    own: &mut [u32],
) -> Result<(), Stop>
    ensures own_line { OwnLine (is_ok result) x.now base bound depth scope.entry.kinds.now (names_in scope.entry) own.old own.new }
    ensures own_len_unchanged { length own.new ≡ length own.old }
    ensures own_leaves { OwnLeaves (is_ok result) (line_added x.now base bound depth scope.entry.kinds.now (names_in scope.entry) own.old) own.new }
{
    let c = parts::byte(x, 1);
    if c == b'd' {
        return drive(x, bound, depth, scope, own);
    }
    if c == b'o' {
        return on_block(x, depth, scope.kinds, own);
    }
    if c == b'p' {
        port_line(x, base, own);
        return Ok(());
    }
    if c == b'r' {
        reg_line(x, own);
        return Ok(());
    }
    if c == b'm' {
        mem_line(x, own);
        return Ok(());
    }
    Ok(())
}

// In a summary's walk, which has no own tables: whether the collected line x has a constant outside INT. Only the drive of an output
// has constants.
pub fn drive_outside(x: &[u8], depth: u32, scope: Scope<'_>) -> bool
    ensures { result ≡ drive_outside x.now depth scope.entry.kinds.now (names_in scope.entry) }
{
    if parts::byte(x, 1) != b'd' {
        return false;
    }
    let lv = parts::between(x, 6, parts::part_end(x, 7));
    let l = named_at(lv, 3);
    if kind_at(scope.kinds, l.name as usize) != Some(Kind::Out) {
        return false;
    }
    let end = l.end;
    lvalue_extent(lv, end, true, depth, scope.names, scope.used).is_err()
}
