// The name table: pairs of a name and its value, the newest last. To take the newest away is to count one pair less.
ghost use Rattle.std.specs.Prelude.{◌≡◌, ◌/◌, min, length, Ok};
ghost use Rattle.spec.specs.Value.{value_of_name};
ghost use Rattle.consteval.specs.Worth.{worth, names_of, room, pushed};

// How many pairs count: those that are used, as far as there are places.
fn counted(names: &[u32], used: usize) -> usize
    ensures { result ≡ min used (length names.now / 2) }
{
    if used < names.len() / 2 {
        used
    } else {
        names.len() / 2
    }
}

// The newest value of a name.
pub(crate) fn look_up(names: &[u32], used: usize, n: u64) -> Option<u32>
    ensures { worth (Ok result) ≡ value_of_name (names_of names.now used) n }
{
    for i in (0..counted(names, used)).rev() {
        if names[i + i] as u64 == n {
            return Some(names[i + i + 1]);
        }
    }
    None
}

// Puts a pair behind those that are used, and says whether there was room.
pub fn push(names: &mut [u32], used: usize, name: u32, value: u32) -> bool
    ensures value { result ≡ room names.old used }
    ensures names_after { names.new ≡ pushed names.old used name value }
{
    if used < names.len() / 2 {
        names[used + used] = name;
        names[used + used + 1] = value;
        return true;
    }
    false
}
