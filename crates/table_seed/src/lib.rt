// The seed of the least table: what the itinerary and the policy ask for by themselves.
#![tactic(auto)]

ghost use Rattle.std.specs.Prelude.{◌≡◌, ℕ, ◌/◌, ◌%◌, ◌^◌, ◌<◌, length};
ghost use Rattle.model.specs.Records.{count, records};
ghost use Rattle.model.specs.Refusals.{pass};
ghost use Rattle.model.specs.Tables.{bits, is_high, place_s};
ghost use Rattle.model.specs.Validity.{validity};
ghost use Rattle.table_words.specs.BitSets.{or_at};
ghost use Rattle.table_partners.specs.Facts.{bearing, name_cell, nesting_cell, standing};
ghost use Rattle.table_seed.specs.Seeds.{CellsSet, Seeded};

use records::Itinerary;
use tables::{HIGH, Policy, Table};

// Sets bit j.
fn set_bit(table: &mut [u8], j: usize)
    requires { j / 8 < length table.old }
    ensures { table.new ≡ or_at table.old (j / 8) (2 ^ (j % 8)) }
{
    table[j / 8] |= 1u8 << (j % 8);
}

// Sets the bits of H that the itinerary asks for, in the names part of the table. (`valid` is what the itinerary's type says, for
// those who only pass it on.)
fn fill_names(it: &Itinerary, names: &mut [u8])
    requires { length names.old ≡ 512 }
    ensures valid { validity it.now ≡ pass }
    ensures cells { CellsSet (bearing (records it.now)) (name_cell (records it.now)) (count it.now) (bits names.old) (bits names.new) }
{
    for i in 0..it.count() {
        let r = records::record_in(it.bytes, i + 1);
        if r.is_ambient() {
            set_bit(names, 64 * (r.label as usize) + (r.name as usize));
        }
    }
}

// Sets the bits of S that the policy asks for.
fn fill_high(policy: &Policy, table: &mut Table)
    ensures { CellsSet (is_high policy.now) place_s 64 (bits table.old) (bits table.new) }
{
    for k in 0..64 {
        if policy[k] == HIGH {
            set_bit(table, tables::SUSPECTS + k);
        }
    }
}

// Sets the bits of I that the itinerary's nesting asks for.
fn fill_nesting(it: &Itinerary, policy: &Policy, table: &mut Table)
    ensures { CellsSet (standing (records it.now)) (nesting_cell (records it.now)) (count it.now) (bits table.old) (bits table.new) }
{
    let bytes = it.bytes;
    let mut notes = enclosures::notes();
    enclosures::enclose(it, policy, &mut notes);
    for i in 0..it.count() {
        let r = records::record_in(bytes, i + 1);
        if r.is_nested() {
            let container = notes[r.parent as usize].unwrap().label;
            set_bit(table, 128 * (container as usize) + (r.label as usize));
        }
    }
}

// Writes the table with what the itinerary and the policy ask for by themselves.
pub fn seed(it: &Itinerary, policy: &Policy, table: &mut Table)
    ensures { Seeded (records it.now) policy.now (bits table.new) }
{
    table.fill(0);
    fill_names(it, &mut table[1024..1536]);
    fill_high(policy, table);
    fill_nesting(it, policy, table);
}
