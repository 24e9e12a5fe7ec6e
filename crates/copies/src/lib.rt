// Copying what stands beneath a replication: refusal 17, what is copied and where it goes, and the copies. (Where they are written it is
// a clause that the itinerary is valid, and no `Itinerary`: that would lend what is written.)
#![tactic(auto)]

ghost use Rattle.std.specs.Prelude.{◌≡◌, ◌*◌, ◌≤◌, ◌<◌, ℕ, get_or, length, replicate, true};
ghost use Rattle.model.specs.Climbing.{below};
ghost use Rattle.model.specs.Copies.{active_replication, beneath, copy, copy_parent, gones};
ghost use Rattle.model.specs.Numbers.{check_as};
ghost use Rattle.model.specs.Records.{count, encode, records};
ghost use Rattle.model.specs.Refusals.{need, pass};
ghost use Rattle.model.specs.Validity.{validity};
ghost use Rattle.copies.specs.Listed.{Leading, Listed};
ghost use Rattle.ways.specs.Ways.{Noting};

use model::{Cause, Refusal};
use records::Itinerary;
use ways::Finds;

// Whether record c stands above, for climbs.
#[derive(Clone, Copy)]
struct Below {
    above: u16,
}

impl Finds for Below {
    type Found = bool;

    ghost view = { λ v. below v.above };

    fn make(&self, it: &[u8], number: u16, above: bool) -> bool {
        (records::parent_of(it, number) == self.above) | above
    }
}

// Lists the records beneath record c, by number, with notes to climb by; answers how many there are.
fn list_noting(it: &[u8], c: u16, notes: &mut [Option<bool>], list: &mut [u16]) -> usize
    requires valid { validity it.now ≡ pass }
    requires noting { Noting (below c) it.now notes.old }
    requires room { count it.now ≤ length list.old }
    ensures { Listed (beneath (records it.now) c) list.new result }
{
    let view = Below { above: c };
    let mut n = 0;
    for i in 0..(it.len() / 8) as u16 {
        if ways::found(it, &view, notes, i + 1) {
            list[n] = i + 1;
            n += 1;
        }
    }
    n
}

// Lists the records beneath record c, by number; answers how many there are.
pub fn list_beneath(it: &Itinerary, c: u16, list: &mut [u16]) -> usize
    requires { count it.now ≤ length list.old }
    ensures { Listed (beneath (records it.now) c) list.new result }
{
    let mut notes = [None; 1025];
    notes[0] = Some(false);
    list_noting(it.bytes, c, &mut notes, list)
}

// Lists the gone records, by number; answers how many there are.
pub fn list_gones(it: &Itinerary, list: &mut [u16]) -> usize
    requires { count it.now ≤ length list.old }
    ensures { Listed (gones (records it.now)) list.new result }
{
    let mut n = 0;
    for i in 0..it.count() {
        let number = i + 1;
        if records::record_in(it.bytes, number).is_gone() {
            list[n] = number;
            n += 1;
        }
    }
    n
}

// Refusal 17.
#[tactic(auto, unfolding(model::specs::Numbers::number_of))]
pub fn replication_gate(it: &Itinerary, c: u16) -> Result<(), Refusal>
    ensures { check_as result ≡ need (active_replication (records it.now) c) 17 0 }
{
    let r = records::record_at(it.bytes, c);
    let active = climbing::ambients(it.bytes, r.parent, it.bytes.len() / 8 + 1);
    gates::need(r.is_replication() & active, Cause::Replication, 0)
}

// Notes of each record beneath record c where its copy goes.
fn link(it: &[u8], c: u16, originals: &[u16], places: &[u16], leads: &mut [u16])
    requires beneath { originals.now ≡ beneath (records it.now) c }
    requires gones { places.now ≡ gones (records it.now) }
    requires fits { length originals.now ≤ length places.now }
    requires room { count it.now < length leads.old }
    requires clear { leads.old ≡ replicate (length leads.old) 0 }
    ensures long { length leads.new ≡ length leads.old }
    ensures leads { Leading (beneath (records it.now) c) (gones (records it.now)) leads.new }
{
    for k in 0..originals.len() {
        leads[originals[k] as usize] = places[k];
    }
}

// Puts the copies: of each original into its place, with the parent that leads gives for the original's.
fn put_copies(it: &mut [u8], c: u16, originals: &[u16], places: &[u16], leads: &[u16])
    requires valid { validity it.old ≡ pass }
    requires active { active_replication (records it.old) c ≡ true }
    requires beneath { originals.now ≡ beneath (records it.old) c }
    requires gones { places.now ≡ gones (records it.old) }
    requires fits { length originals.now ≤ length places.now }
    requires room { count it.old < length leads.now }
    requires leads { (q : ℕ) → q ≤ count it.old → get_or leads.now q 0 ≡ copy_parent (records it.old) c q }
    ensures { it.new ≡ encode (copy c (records it.old)) }
{
    for k in 0..originals.len() {
        let r = records::record_in(it, originals[k]);
        let parent = leads[r.parent as usize];
        records::put_record(it, places[k], records::with_parent(r, parent));
    }
}

// Copies what stands beneath record c, by the lists of what stands there and of what is gone.
pub fn write(it: &mut [u8], c: u16, originals: &[u16], places: &[u16])
    requires valid { validity it.old ≡ pass }
    requires active { active_replication (records it.old) c ≡ true }
    requires beneath { originals.now ≡ beneath (records it.old) c }
    requires gones { places.now ≡ gones (records it.old) }
    requires fits { length originals.now ≤ length places.now }
    ensures { it.new ≡ encode (copy c (records it.old)) }
{
    let mut leads = [0u16; 1025];
    link(it, c, originals, places, &mut leads);
    leads[c as usize] = records::record_at(it, c).parent;
    put_copies(it, c, originals, places, &leads);
}
