// Whether the rules of an itinerary's capabilities hold in a table: by its movers, pair by pair; in and out on the table's
// words, open by row inclusion on rows of the lent table.
// (A label is a number that is asked to be below 64, and words and movers are two parameters, as in `table_rows`.)
#![tactic(auto)]

ghost use Rattle.std.specs.Prelude.{◌≡◌, ℕ, ◌<◌};
ghost use Rattle.model.specs.Records.{records};
ghost use Rattle.model.specs.Tables.{bits, parts};
ghost use Rattle.table_words.specs.BitSets.{Bits};
ghost use Rattle.table_partners.specs.Rules.{AllRules, RulesClosed};
ghost use Rattle.table_rules.specs.Tests.{Decides, InOutHeld, PairHeld, RowHeld, Within, open_holds};

use records::Itinerary;
use table_words::{Kinds, Ones, Words};
use tables::{ROW_BYTES, Table};

// Whether all labels of x are labels of y.
fn within(x: u64, y: u64) -> bool
    ensures { Decides result (Within x y) }
{
    x | y == y
}

// Whether the rules of in and out hold for b in row p; w is the table in words.
fn in_out_holds(w: &Words, movers: &Kinds, p: usize, b: usize) -> bool
    requires p_bound { p < 64 }
    requires b_bound { b < 64 }
    ensures { Decides result (InOutHeld movers.now p b (Bits w.now)) }
{
    let here = w[2 * p];
    let there = w[2 * b];
    let entering = here & movers[b];
    let leaving = there & movers[64 + b];
    if !within(entering, there) {
        return false;
    }
    if !within(leaving, here) {
        return false;
    }
    if table_words::bit_of(w[table_words::SUSPECTS], b) {
        return within(entering | leaving, w[table_words::SUSPECTS]);
    }
    true
}

// Whether b may be opened in p: its row lies inside p's, and if b is suspect so is p.
fn open_holds(table: &Table, p: usize, b: usize) -> bool
    requires p_bound { p < 64 }
    requires b_bound { b < 64 }
    ensures { result ≡ open_holds (parts (bits table.now)) p b }
{
    let (rows, _) = table.as_chunks::<ROW_BYTES>();
    if !tables::row_included(&rows[b], &rows[p]) {
        return false;
    }
    if tables::bit(table, tables::SUSPECTS + b) {
        return tables::bit(table, tables::SUSPECTS + p);
    }
    true
}

// Whether the rules hold for b in row p.
fn pair_holds(table: &Table, w: &Words, movers: &Kinds, p: usize, b: usize) -> bool
    requires same_bits { Bits w.now ≡ bits table.now }
    requires p_bound { p < 64 }
    requires b_bound { b < 64 }
    ensures { Decides result (PairHeld movers.now p b (Bits w.now)) }
{
    if !in_out_holds(w, movers, p, b) {
        return false;
    }
    if table_words::bit_of(movers[128 + b], p) {
        return open_holds(table, p, b);
    }
    true
}

// Whether the rules hold for all of row p.
fn row_holds(table: &Table, w: &Words, movers: &Kinds, p: usize) -> bool
    requires same_bits { Bits w.now ≡ bits table.now }
    requires p_bound { p < 64 }
    ensures { Decides result (RowHeld movers.now (Bits w.now) p) }
{
    for b in Ones(w[2 * p]) {
        if !pair_holds(table, w, movers, p, b) {
            return false;
        }
    }
    true
}

// Whether the rules of these partners hold; w is the table in words.
pub fn closed(table: &Table, w: &Words, partners: &Kinds) -> bool
    requires { Bits w.now ≡ bits table.now }
    ensures { Decides result (RulesClosed partners.now (Bits w.now)) }
{
    let mut movers = [0u64; table_words::KIND_WORDS];
    table_movers::movers_of(w, partners, &mut movers);
    for p in 0..64 {
        if !row_holds(table, w, &movers, p) {
            return false;
        }
    }
    true
}

// Whether the rules of all capabilities hold.
pub fn rules_hold(it: &Itinerary, table: &Table) -> bool
    ensures { Decides result (AllRules (records it.now) (bits table.now)) }
{
    let mut w = [0u64; table_words::TABLE_WORDS];
    table_words::load(table, &mut w);
    let mut partners = [0u64; table_words::KIND_WORDS];
    table_partners::partners_of(it, &w, &mut partners);
    closed(table, &w, &partners)
}
