// Making the least table that holds.
#![tactic(auto)]

ghost use Rattle.std.specs.Prelude.{◌≡◌};
ghost use Rattle.model.proofs.Laws.Sets.{Narrow};
ghost use Rattle.model.specs.Analysis.{permit_all};
ghost use Rattle.model.specs.Least.{least_table};
ghost use Rattle.model.specs.Records.{records};
ghost use Rattle.model.specs.Refusals.{pass};
ghost use Rattle.model.specs.Tables.{bits, total};
ghost use Rattle.model.specs.Validity.{validity};
ghost use Rattle.table_least.specs.Least.{LeastClosed};

use records::Itinerary;
use tables::{Policy, Table};

// Closes a table under the rules of the itinerary's capabilities.
fn close_table(it: &Itinerary, table: &mut Table)
    ensures valid { validity it.now ≡ pass }
    ensures closed { LeastClosed (records it.now) (bits table.old) (bits table.new) }
    ensures narrow { Narrow 8 table.new }
{
    let mut w = [0u64; table_words::TABLE_WORDS];
    table_words::load(table, &mut w);
    let mut partners = [0u64; table_words::KIND_WORDS];
    table_partners::partners_of(it, &w, &mut partners);
    table_closure::close(&mut w, &partners);
    table_words::store(&w, table);
}

// How many bits are one.
fn count_ones(table: &Table) -> u16
    ensures { result ≡ total table.now }
{
    table.iter().map(|byte| byte.count_ones() as u16).sum()
}

// Writes the least table that holds, and counts its bits.
pub fn write_least(it: &Itinerary, policy: &Policy, table: &mut Table) -> u16
    ensures made { table.new ≡ least_table permit_all policy.now (records it.now) }
    ensures counted { result ≡ total table.new }
{
    table_seed::seed(it, policy, table);
    close_table(it, table);
    count_ones(table)
}
