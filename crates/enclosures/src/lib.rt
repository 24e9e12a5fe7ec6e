// What stands above each record, found by one climb: the label of the nearest ambient, and the number of the nearest boundary
// ambient (`enclosing` of the model).
#![tactic(auto)]

ghost use Rattle.std.specs.Prelude.{◌≡◌, None, Some, replicate, set};
ghost use Rattle.model.specs.Climbing.{enclosing, enclosure};
ghost use Rattle.model.specs.Records.{records};
ghost use Rattle.ways.specs.Ways.{Noting};
ghost use Rattle.enclosures.specs.Notes.{all_notes};

use model::Above;
use records::Itinerary;
use tables::{BOUNDARY, Policy};
use ways::Finds;

// What encloses the records by a policy, for climbs.
#[derive(Clone, Copy)]
struct Enclosing<'a> {
    policy: &'a Policy,
}

impl<'a> Finds for Enclosing<'a> {
    type Found = Above;

    ghost view = { λ v. enclosing v.policy.now };

    fn make(&self, it: &[u8], number: u16, above: Above) -> Above {
        let r = records::record_in(it, number);
        if !r.is_ambient() {
            return above;
        }
        let label = r.label;
        if self.policy[label as usize] == BOUNDARY {
            let boundary = number;
            return Above { label, boundary };
        }
        Above { label, ..above }
    }
}

// What encloses the environment.
fn outermost() -> Above
    ensures { result ≡ record { label = 0; boundary = 0 } }
{
    Above {
        label: 0,
        boundary: 0,
    }
}

// Room for the notes of all numbers, with the environment's.
pub fn notes() -> [Option<Above>; 1025]
    ensures { result ≡ set (replicate 1025 None) 0 (Some (record { label = 0; boundary = 0 })) }
{
    let mut notes = [None; 1025];
    notes[0] = Some(outermost());
    notes
}

// Notes what each number is enclosed by, itself counted.
pub fn enclose(it: &Itinerary, policy: &Policy, notes: &mut [Option<Above>])
    requires { Noting (enclosing policy.now) it.now notes.old }
    ensures { notes.new ≡ all_notes policy.now it.now notes.old }
{
    let view = Enclosing { policy };
    for i in 0..it.count() {
        let _ = ways::found(it.bytes, &view, notes, i + 1);
    }
}

// What stands above record i: its container, and the nearest boundary ambient.
pub fn enclosure_of(it: &Itinerary, policy: &Policy, i: u16) -> Above
    ensures { result ≡ enclosure policy.now (records it.now) i }
{
    let parent = records::record_at(it.bytes, i).parent;
    if parent == 0 {
        return outermost();
    }
    let mut notes = notes();
    ways::found(it.bytes, &Enclosing { policy }, &mut notes, parent)
}
