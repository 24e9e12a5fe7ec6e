// Whether a table holds for an itinerary and a policy.
#![tactic(auto)]

ghost use Rattle.std.specs.Prelude.{◌≡◌, true, ◌<◌};
ghost use Rattle.model.specs.Analysis.{permit_all, holds};
ghost use Rattle.model.specs.Finite.{every};
ghost use Rattle.model.specs.Validity.{shape};
ghost use Rattle.model.specs.Records.{records};
ghost use Rattle.model.specs.Tables.{bits, is_high, parts, suspects};
ghost use Rattle.table_holds.specs.Tests.{nesting_holds, stood};

use model::Rec;
use records::Itinerary;
use tables::{HIGH, Policy, Table};

// Whether every high label is suspect.
pub fn highs_hold(policy: &Policy, table: &Table) -> bool
    ensures { result ≡ every 64 (is_high policy.now) (suspects table.now) }
{
    policy.iter().enumerate().all(|(k, &class)| class != HIGH
        || tables::bit(table, tables::SUSPECTS + k))
}

// Whether a record may stand in its container, a number below 64 (as in `table_rows`), and, if an ambient, bear its name.
fn stands(r: Rec, table: &Table, container: u8) -> bool
    requires shaped { shape r ≡ true }
    requires container_bound { container < 64 }
    ensures { result ≡ stood (parts (bits table.now)) container r }
{
    let label = r.label as usize;
    if !tables::bit(table, 128 * (container as usize) + label) {
        return false;
    }
    if !r.is_ambient() {
        return true;
    }
    tables::bit(table, tables::NAMES + (64 * label + (r.name as usize)))
}

// Whether every ambient and capability may stand where it stands and every ambient bear its name.
pub fn nesting_holds(it: &Itinerary, policy: &Policy, table: &Table) -> bool
    ensures { result ≡ nesting_holds (records it.now) (parts (bits table.now)) }
{
    let bytes = it.bytes;
    let mut notes = enclosures::notes();
    enclosures::enclose(it, policy, &mut notes);
    for i in 0..it.count() {
        let r = records::record_in(bytes, i + 1);
        if r.is_nested() {
            if !stands(r, table, notes[r.parent as usize].unwrap().label) {
                return false;
            }
        }
    }
    true
}

// Whether the table holds. (Policy and table are two parameters, as in the definitions.)
pub fn holds(it: &Itinerary, policy: &Policy, table: &Table) -> bool
    ensures { result ≡ holds permit_all policy.now (records it.now) (parts (bits table.now)) }
{
    highs_hold(policy, table)
        && nesting_holds(it, policy, table)
        && table_rules::rules_hold(it, table)
}
