// Reads first.bin, second.bin, third.bin and fourth.bin, and writes the bytes of the itinerary that they are joined to; an unused
// place is an empty file. It fails closed: where a file can't be read, a member is refused, or they have more than 1,024 records
// together, it writes one byte, which is no itinerary, and on standard error what is wrong: the file and what the system says of
// it, or the cause, for a member with its file and record.
#![tactic(auto)]

ghost use Rattle.std.specs.Prelude.{◌≡◌, ◌≤◌, length, option_map, IfOk};
ghost use Rattle.hubjoin.specs.Joined.{joined_file, joined_set};
ghost use Rattle.model.specs.Joins.{four, members_check};
ghost use Rattle.model.specs.Numbers.{check_as};
ghost use Rattle.model.specs.Refusals.{pass};
ghost use Rattle.model.specs.Validity.{validity};
ghost use Rattle.text_put.specs.Puts.{over};

use joins::Members;
use model::{Cause, Refusal};
use records::Itinerary;

// The byte that is written where there is no itinerary: every call on an itinerary refuses a length that is no multiple of 8.
const NONE: u8 = 0;

// Refusals 1 to 6 of a member; what is refused is told with its file's name.
fn member<'a>(err: &impl Print, named: &[u8], it: &'a [u8]) -> Result<Itinerary<'a>, Refusal>
    ensures checks { check_as result ≡ validity it.now }
    ensures same { IfOk result (λ passed. passed ≡ it.now) }
{
    match validity::validity(it) {
        Ok(valid) => Ok(valid),
        Err(r) => {
            text_refusal::tell(err, named, r);
            Err(r)
        }
    }
}

// Refusals 1 to 6 of each member, in their order; the members that pass.
#[tactic(auto, unfolding(model::specs::Joins::members_check, model::specs::Numbers::check_as, model::specs::Refusals::and_then))]
fn members<'a>(
    err: &impl Print,
    first: &'a [u8],
    second: &'a [u8],
    third: &'a [u8],
    fourth: &'a [u8],
) -> Result<Members<'a>, Refusal>
    ensures checks { check_as result ≡ members_check (four first.now second.now third.now fourth.now) }
    ensures same { IfOk result (λ passed. passed ≡ four first.now second.now third.now fourth.now) }
{
    Ok([
        member(err, b"hubjoin: first.bin", first)?,
        member(err, b"hubjoin: second.bin", second)?,
        member(err, b"hubjoin: third.bin", third)?,
        member(err, b"hubjoin: fourth.bin", fourth)?,
    ])
}

// Fills the bytes with what is written of valid members, and answers their number.
fn join_valid(err: &impl Print, members: &Members, it: &mut [u8]) -> usize
    requires long { length it.old ≡ 8192 }
    requires valid { members_check members.now ≡ pass }
    ensures length { result ≡ length (joined_set members.now) }
    ensures bytes { it.new ≡ over (joined_set members.now) it.old }
    ensures within { result ≤ length it.new }
{
    let n = joins::count(members);
    if n > 1024 {
        let many = Refusal {
            cause: Cause::Set,
            record: 0,
        };
        text_refusal::tell(err, b"hubjoin", many);
        return text_put::put_byte(it, 0, NONE);
    }
    joins::write(members, &mut it[..8 * n]);
    8 * n
}

// Fills the bytes with what the program writes, by its files' bytes where they can be read, and answers their number.
fn join(
    err: &impl Print,
    first: Option<&[u8]>,
    second: Option<&[u8]>,
    third: Option<&[u8]>,
    fourth: Option<&[u8]>,
    it: &mut [u8; 8192],
) -> usize
    ensures length { result ≡ length (joined_file (option_map (λ s. s.now) first.entry) (option_map (λ s. s.now) second.entry) (option_map (λ s. s.now) third.entry) (option_map (λ s. s.now) fourth.entry)) }
    ensures bytes { it.new ≡ over (joined_file (option_map (λ s. s.now) first.entry) (option_map (λ s. s.now) second.entry) (option_map (λ s. s.now) third.entry) (option_map (λ s. s.now) fourth.entry)) it.old }
    ensures within { result ≤ length it.new }
{
    let (Some(a), Some(b), Some(c), Some(d)) = (first, second, third, fourth) else {
        return text_put::put_byte(it, 0, NONE);
    };
    match members(err, a, b, c, d) {
        Ok(members) => join_valid(err, &members, it),
        Err(_) => text_put::put_byte(it, 0, NONE),
    }
}

fn main(rt: HostRuntime) {
    let err = rt.stderr();
    let mut a = [0u8; 8193];
    let mut b = [0u8; 8193];
    let mut c = [0u8; 8193];
    let mut d = [0u8; 8193];
    let mut it = [0u8; 8192];
    let first = files::read_most(&rt, &err, b"first.bin", &mut a, 8192);
    let second = files::read_most(&rt, &err, b"second.bin", &mut b, 8192);
    let third = files::read_most(&rt, &err, b"third.bin", &mut c, 8192);
    let fourth = files::read_most(&rt, &err, b"fourth.bin", &mut d, 8192);
    let r = join(
        &err,
        first.map(|n| &a[..n]),
        second.map(|n| &b[..n]),
        third.map(|n| &c[..n]),
        fourth.map(|n| &d[..n]),
        &mut it,
    );
    files::write(&rt, &err, &it[..r]);
}
