// Climbing past ambients: whether all records above are ambients. (That the records are whole is asked, here and in steps and
// scripts: the bytes may be about to be written, so no type holds them.)
#![tactic(auto)]

ghost use Rattle.std.specs.Prelude.{◌≡◌, ◌%◌, length};
ghost use Rattle.model.specs.Climbing.{ambients_only, view_from};
ghost use Rattle.model.specs.Records.{records};
ghost use Rattle.climbing.specs.Up.{up_from};

// The number above an ambient, and i itself where it is none: the environment and what bars the way stay.
fn up(it: &[u8], i: u16) -> u16
    ensures { result ≡ up_from it.now i }
{
    let r = records::record_at(it, i);
    if r.is_ambient() { r.parent } else { i }
}

// Whether number i and all records above it are ambients, with at most left climbs. Four climbs a call.
pub fn ambients(it: &[u8], i: u16, left: usize) -> bool
    requires { length it.now % 8 ≡ 0 }
    ensures { result ≡ view_from ambients_only (records it.now) left i }
{
    let r = records::record_at(it, i);
    if !r.is_ambient() {
        return i == 0;
    }
    if left == 0 {
        return false;
    }
    if left < 4 {
        return ambients(it, r.parent, left - 1);
    }
    ambients(it, up(it, up(it, up(it, r.parent))), left - 4)
}
