// The whole check for programs in other languages: numbers and slices of numbers only.
#![tactic(auto)]

ghost use Rattle.std.specs.Prelude.{◌≡◌, [], ◌∷◌, set};
ghost use Rattle.spec.specs.Check.{check_call};
ghost use Rattle.drivers.specs.Check.{slices};
ghost use Rattle.drivers_c.specs.Code.{told, Called};

use drivers::check;
use drivers::check::Answer;

// Stores a number at i, nothing past the end.
fn put(numbers: &mut [u64], i: usize, v: u64)
    ensures { numbers.new ≡ set numbers.old i v }
{
    if i < numbers.len() {
        numbers[i] = v;
    }
}

// Stores the five numbers of an answer.
fn tell(numbers: &mut [u64], a: Answer)
    ensures { numbers.new ≡ told numbers.old a.number a.line a.bytes a.reports a.rounds }
{
    put(numbers, 0, a.number as u64);
    put(numbers, 1, a.line as u64);
    put(numbers, 2, a.bytes as u64);
    put(numbers, 3, a.reports as u64);
    put(numbers, 4, a.rounds as u64);
}

// Checks a text: the number of the answer. `report` has the reports, as many bytes as the answer says, and keeps its other bytes.
// `numbers` has the answer: number, line, bytes, reports, rounds, as many as it has room for. The other slices are working memory, which
// may hold anything and is zero afterwards: `kinds` of 8,192 places or more, `mods` of 128, `names` of 6,616, `own` of 11,016, `g` of
// 15,874, `w` of 29,190, `k` of 2,145; with fewer the number is 20. With 16,898 for `g` nodes are found faster.
// The deepest text that was tried takes less than 4 MiB of stack (bench/README.md): a thread has to have that much.
#[unsafe(no_mangle)]
pub extern "C" fn drivercheck_check(
    text: &[u8],
    report: &mut [u8],
    numbers: &mut [u64],
    kinds: &mut [u8],
    mods: &mut [u32],
    names: &mut [u32],
    own: &mut [u32],
    g: &mut [u32],
    w: &mut [u32],
    k: &mut [u32],
) -> u32
    ensures { Called
        (check_call (slices kinds.old mods.old names.old own.old g.old w.old k.old)
        text.now report.old)
        result report.new numbers.old numbers.new
        (kinds.new ∷ mods.new ∷ names.new ∷ own.new ∷ g.new ∷ w.new ∷ k.new ∷ []) }
{
    let a = check::check_drivers(text, report, kinds, mods, names, own, g, w, k);
    tell(numbers, a);
    a.number
}
