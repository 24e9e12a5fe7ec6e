// Refusals 1 to 6: what makes bytes an itinerary.
#![tactic(auto, unfolding(model::specs::Numbers::check_as, model::specs::Numbers::number_of, model::specs::Refusals::and_then, model::specs::Validity::form, model::specs::Validity::size_right, model::specs::Validity::validity))]

ghost use Rattle.std.specs.Prelude.{◌≡◌, IfOk};
ghost use Rattle.model.specs.Numbers.{check_as};
ghost use Rattle.model.specs.Records.{count, records};
ghost use Rattle.model.specs.Refusals.{each_of};
ghost use Rattle.model.specs.Validity.{climb_check, form, validity};
ghost use Rattle.validity.specs.Arriving.{arriving};
ghost use Rattle.record_checks.specs.Reading.{in_order};
ghost use Rattle.ways.specs.Ways.{Noting, Viewable};

use model::{Cause, Refusal};
use records::Itinerary;
use ways::Finds;

// What a climb finds that asks only whether the environment is reached: nothing more.
#[derive(Clone, Copy)]
struct Reaching;

impl Finds for Reaching {
    type Found = ();

    ghost view = { λ _. arriving };

    fn make(&self, _it: &[u8], _number: u16, _above: ()) {}
}

// Refusal 6 of the n records, with notes to climb by.
fn climb_all(it: &[u8], notes: &mut [Option<()>], n: u16) -> Result<(), Refusal>
    requires noting { Noting arriving it.now notes.old }
    requires counted { n ≡ count it.now }
    ensures { check_as result ≡ each_of (climb_check (records it.now)) 1 n }
{
    for i in 0..n {
        let found = ways::find(it, &Reaching, notes, i + 1, n as usize);
        gates::need(found.is_some(), Cause::Climb, i + 1)?;
    }
    Ok(())
}

// Refusal 6 of the n records. Where they are in order all reach the environment, and nothing is climbed.
fn climbs(it: &[u8], n: u16, ordered: bool) -> Result<(), Refusal>
    requires viewable { Viewable it.now }
    requires counted { n ≡ count it.now }
    requires order { ordered ≡ in_order it.now n }
    ensures { check_as result ≡ each_of (climb_check (records it.now)) 1 n }
{
    if ordered {
        return Ok(());
    }
    let mut notes = [None; 1025];
    notes[0] = Some(());
    climb_all(it, &mut notes, n)
}

// Refusals 1 to 6. Each looks only at what those before it let through.
pub fn form(it: &[u8]) -> Result<(), Refusal>
    ensures { check_as result ≡ form it.now }
{
    let len = it.len();
    gates::need((len % 8 == 0) & (len <= records::LONGEST), Cause::Length, 0)?;
    let n = (len / 8) as u16;
    let ordered = record_checks::read_all(it, n)?;
    climbs(it, n, ordered)
}

// What every call on an itinerary looks for first; the itinerary that passes.
pub fn validity(it: &[u8]) -> Result<Itinerary, Refusal>
    ensures checks { check_as result ≡ validity it.now }
    ensures same { IfOk result (λ passed. passed ≡ it.now) }
{
    form(it)?;
    Ok(Itinerary { bytes: it })
}
