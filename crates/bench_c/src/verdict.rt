// The reader.
ghost use Rattle.std.specs.Prelude.{◌≡◌};
ghost use Rattle.spec.specs.Refusal.{refusal};
ghost use Rattle.bench_c.specs.Verdict.{code};

// Whether a text is well formed, as one number: 0, or else the refusal's number times 2^32 and its line.
#[unsafe(no_mangle)]
pub extern "C" fn drivercheck_lines(text: &[u8]) -> u64
    ensures { result ≡ code (refusal text.now) }
{
    match lines::reader::read(text) {
        Err(r) => u32::from(r.fault) as u64 * 4294967296 + r.line as u64,
        Ok(_) => 0,
    }
}
