// Report lines as bytes: for each piece a function that counts its bytes and one that writes it at a place in a lent buffer, where it
// fits and no other byte. The laws in proofs tie the pieces to `show_report` of the specification.
#![tactic(auto)]

ghost use Rattle.std.specs.Prelude.{◌≡◌, ◌+◌, ◌≤◌, leb, length};
ghost use Rattle.spec.specs.Bytes.{show_number};
ghost use Rattle.report.specs.Line.{code_digit, field, line_head, detail_end, line, index_bytes, output_bytes, walk_head, walk_node, walk_tail, refused_line, Ran, put_by, placed};

#[derive(Clone, Copy, Debug, PartialEq, Eq)]
pub enum Detail {
    Wire,
    Reg,
    Mem,
    Arrow,
    Many,
    Never,
    Gap(u32),
    NoBlock,
    Blocks,
    MemBlocks,
}

#[derive(Clone, Copy, Debug, PartialEq, Eq)]
pub struct Report {
    pub number: u32,
    pub start: u32,
    pub name: u32,
    pub detail: Detail,
}

// What zero is held as in an index.
const ZERO: u32 = 2147483648;

// A signal; or an instance output, whose index v, where it has one, is held as v + 2147483648.
#[derive(Clone, Copy, Debug, PartialEq, Eq)]
pub enum Node {
    Signal(u32),
    Output {
        inst: u32,
        index: Option<u32>,
        out: u32,
    },
}

// How many digits a number has.
fn count_number(n: u32) -> usize
    ensures { (result ≡ length (show_number n)) × (result ≤ 10) }
{
    match n.checked_ilog10() {
        Some(k) => k as usize + 1,
        None => 1,
    }
}

fn count_detail(d: Detail) -> usize
    ensures { (result ≡ length (detail_end d)) × (result ≤ 20) }
{
    match d {
        Detail::Wire => 7,
        Detail::Reg => 6,
        Detail::Mem => 6,
        Detail::Arrow => 8,
        Detail::Many => 7,
        Detail::Never => 8,
        Detail::Gap(b) => 7 + count_number(b),
        Detail::NoBlock => 7,
        Detail::Blocks => 9,
        Detail::MemBlocks => 12,
    }
}

// How many bytes a report's line has.
pub fn count_report(x: Report) -> usize
    ensures { (result ≡ length (line x)) × (result ≤ 60) }
{
    let a = count_number(x.number);
    let b = count_number(x.start);
    let c = count_number(x.name);
    let detail = x.detail;
    let d = count_detail(detail);
    9 + a + b + c + d
}

fn count_index(index: Option<u32>) -> usize
    ensures { (result ≡ length (index_bytes index)) × (result ≤ 11) }
{
    match index {
        Some(v) => {
            if v < ZERO {
                1 + count_number(ZERO - v)
            } else {
                count_number(v - ZERO)
            }
        }
        None => 1,
    }
}

// How many bytes ` NODE` has.
pub fn count_walk_node(n: Node) -> usize
    ensures { (result ≡ length (walk_node n)) × (result ≤ 40) }
{
    match n {
        Node::Signal(name) => 1 + count_number(name),
        Node::Output { inst, index, out } => {
            let a = count_number(inst);
            let b = count_index(index);
            let c = count_number(out);
            7 + a + b + c
        }
    }
}

// How many bytes `(E0504 M START (walk` has.
pub fn count_walk_head(m: u32, start: u32) -> usize
    ensures { (result ≡ length (walk_head m start)) × (result ≤ 40) }
{
    let a = count_number(m);
    let b = count_number(start);
    14 + a + b
}

// How many bytes `))` and a line feed are.
pub fn count_walk_tail() -> usize
    ensures { result ≡ length walk_tail }
{
    3
}

// How many bytes `(refused NUMBER LINE)` and a line feed are.
pub fn count_refused(number: u32, line: u32) -> usize
    ensures { (result ≡ length (refused_line number line)) × (result ≤ 40) }
{
    let a = count_number(number);
    let b = count_number(line);
    12 + a + b
}

// The digits, the last one first.
fn write_number(buf: &mut [u8], at: usize, n: u32) -> usize
    requires { at + length (show_number n) ≤ length buf.old }
    ensures { Ran buf.old at (show_number n) result buf.new }
{
    let end = at + count_number(n);
    let mut m = n;
    for i in (at..end).rev() {
        buf[i] = (48 + m % 10) as u8;
        m /= 10;
    }
    end
}

fn write_word(buf: &mut [u8], at: usize, word: &[u8]) -> usize
    requires { at + length word.now ≤ length buf.old }
    ensures { Ran buf.old at word.now result buf.new }
{
    let end = at + word.len();
    buf[at..end].copy_from_slice(word);
    end
}

// A space and a number.
fn write_field(buf: &mut [u8], at: usize, n: u32) -> usize
    requires { at + length (field n) ≤ length buf.old }
    ensures { Ran buf.old at (field n) result buf.new }
{
    buf[at] = b' ';
    write_number(buf, at + 1, n)
}

// The last digit of a report's code.
fn code_digit(d: Detail) -> u8
    ensures { result ≡ code_digit d }
{
    match d {
        Detail::Wire => b'1',
        Detail::Reg => b'5',
        Detail::Mem => b'5',
        Detail::Arrow => b'5',
        Detail::Many => b'1',
        Detail::Never => b'2',
        Detail::Gap(_) => b'2',
        Detail::NoBlock => b'3',
        Detail::Blocks => b'3',
        Detail::MemBlocks => b'3',
    }
}

// The code, and three numbers.
fn write_head(buf: &mut [u8], at: usize, digit: u8, m: u32, start: u32, name: u32) -> usize
    requires { at + length (line_head digit m start name) ≤ length buf.old }
    ensures { Ran buf.old at (line_head digit m start name) result buf.new }
{
    let a = write_word(buf, at, b"(E050");
    let b = write_word(buf, a, &[digit]);
    let c = write_field(buf, b, m);
    let d = write_field(buf, c, start);
    write_field(buf, d, name)
}

// What stands behind the name.
fn write_detail(buf: &mut [u8], at: usize, d: Detail) -> usize
    requires { at + length (detail_end d) ≤ length buf.old }
    ensures { Ran buf.old at (detail_end d) result buf.new }
{
    match d {
        Detail::Wire => write_word(buf, at, b" wire)\n"),
        Detail::Reg => write_word(buf, at, b" reg)\n"),
        Detail::Mem => write_word(buf, at, b" mem)\n"),
        Detail::Arrow => write_word(buf, at, b" arrow)\n"),
        Detail::Many => write_word(buf, at, b" many)\n"),
        Detail::Never => write_word(buf, at, b" never)\n"),
        Detail::Gap(bit) => {
            let a = write_word(buf, at, b" gap");
            let b = write_field(buf, a, bit);
            write_word(buf, b, b")\n")
        }
        Detail::NoBlock => write_word(buf, at, b" none)\n"),
        Detail::Blocks => write_word(buf, at, b" blocks)\n"),
        Detail::MemBlocks => write_word(buf, at, b" memblocks)\n"),
    }
}

fn write_report(buf: &mut [u8], at: usize, x: Report) -> usize
    requires { at + length (line x) ≤ length buf.old }
    ensures { Ran buf.old at (line x) result buf.new }
{
    let detail = x.detail;
    let digit = code_digit(detail);
    let a = write_head(buf, at, digit, x.number, x.start, x.name);
    write_detail(buf, a, detail)
}

// An instance output's index: `-` for none.
fn write_index(buf: &mut [u8], at: usize, index: Option<u32>) -> usize
    requires { at + length (index_bytes index) ≤ length buf.old }
    ensures { Ran buf.old at (index_bytes index) result buf.new }
{
    match index {
        Some(v) => {
            if v < ZERO {
                buf[at] = b'-';
                return write_number(buf, at + 1, ZERO - v);
            }
            write_number(buf, at, v - ZERO)
        }
        None => write_word(buf, at, b"-"),
    }
}

fn write_output(buf: &mut [u8], at: usize, inst: u32, index: Option<u32>, out: u32) -> usize
    requires { at + length (output_bytes inst index out) ≤ length buf.old }
    ensures { Ran buf.old at (output_bytes inst index out) result buf.new }
{
    let a = write_word(buf, at, b" (u");
    let b = write_field(buf, a, inst);
    let c = write_word(buf, b, b" ");
    let d = write_index(buf, c, index);
    let e = write_field(buf, d, out);
    write_word(buf, e, b")")
}

fn write_walk_node(buf: &mut [u8], at: usize, n: Node) -> usize
    requires { at + length (walk_node n) ≤ length buf.old }
    ensures { Ran buf.old at (walk_node n) result buf.new }
{
    match n {
        Node::Signal(name) => write_field(buf, at, name),
        Node::Output { inst, index, out } => write_output(buf, at, inst, index, out),
    }
}

fn write_walk_head(buf: &mut [u8], at: usize, m: u32, start: u32) -> usize
    requires { at + length (walk_head m start) ≤ length buf.old }
    ensures { Ran buf.old at (walk_head m start) result buf.new }
{
    let a = write_word(buf, at, b"(E0504");
    let b = write_field(buf, a, m);
    let c = write_field(buf, b, start);
    write_word(buf, c, b" (walk")
}

fn write_refused(buf: &mut [u8], at: usize, number: u32, line: u32) -> usize
    requires { at + length (refused_line number line) ≤ length buf.old }
    ensures { Ran buf.old at (refused_line number line) result buf.new }
{
    let a = write_word(buf, at, b"(refused");
    let b = write_field(buf, a, number);
    let c = write_field(buf, b, line);
    write_word(buf, c, b")\n")
}

// Whether n bytes fit from a place on.
fn has_room(len: usize, at: usize, n: usize) -> bool
    ensures { result ≡ leb (at + n) len }
{
    if len < at {
        return false;
    }
    n <= len - at
}

// A report's line, at a place of the buffer: the place behind it, or it does not fit, and nothing is written. So do the others.
pub fn put_report(buf: &mut [u8], at: usize, x: Report) -> Option<usize>
    ensures { put_by result buf.new ≡ placed buf.old at (line x) }
{
    if has_room(buf.len(), at, count_report(x)) {
        Some(write_report(buf, at, x))
    } else {
        None
    }
}

// `(E0504 M START (walk`.
pub fn put_walk_head(buf: &mut [u8], at: usize, m: u32, start: u32) -> Option<usize>
    ensures { put_by result buf.new ≡ placed buf.old at (walk_head m start) }
{
    if has_room(buf.len(), at, count_walk_head(m, start)) {
        Some(write_walk_head(buf, at, m, start))
    } else {
        None
    }
}

// ` NODE`.
pub fn put_walk_node(buf: &mut [u8], at: usize, n: Node) -> Option<usize>
    ensures { put_by result buf.new ≡ placed buf.old at (walk_node n) }
{
    if has_room(buf.len(), at, count_walk_node(n)) {
        Some(write_walk_node(buf, at, n))
    } else {
        None
    }
}

// `))` and a line feed.
pub fn put_walk_tail(buf: &mut [u8], at: usize) -> Option<usize>
    ensures { put_by result buf.new ≡ placed buf.old at walk_tail }
{
    if has_room(buf.len(), at, 3) {
        Some(write_word(buf, at, b"))\n"))
    } else {
        None
    }
}

// `(refused NUMBER LINE)` and a line feed.
pub fn put_refused(buf: &mut [u8], at: usize, number: u32, line: u32) -> Option<usize>
    ensures { put_by result buf.new ≡ placed buf.old at (refused_line number line) }
{
    if has_room(buf.len(), at, count_refused(number, line)) {
        Some(write_refused(buf, at, number, line))
    } else {
        None
    }
}
