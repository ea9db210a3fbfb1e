// The evaluator.
ghost use Rattle.std.specs.Prelude.{◌≡◌};
ghost use Rattle.spec.specs.Decode.{decode_expr};
ghost use Rattle.spec.specs.Value.{value};
ghost use Rattle.consteval.specs.Worth.{names_of};
ghost use Rattle.bench_c.specs.Eval.{allowed, code};

// A depth that no bytes can turn into a full stack: 32, the brackets of the line format, for a greater one.
fn bounded(depth: u32) -> u32
    ensures { result ≡ allowed depth }
{
    if depth < 32 { depth } else { 32 }
}

// The value of the expression e under the first `used` pairs of `names`, as one number: v + 2147483648, or 2^32 for none and
// 2^32 + 1 for one outside INT. A depth above 32 is taken as 32.
#[unsafe(no_mangle)]
pub extern "C" fn drivercheck_eval(e: &[u8], depth: u32, names: &[u32], used: usize) -> u64
    ensures { result ≡ code (value (names_of names.now used) (decode_expr (allowed depth) e.now)) }
{
    match consteval::eval(e, bounded(depth), names, used) {
        Ok(Some(x)) => x as u64,
        Ok(None) => 4294967296,
        Err(_) => 4294967297,
    }
}
