// The least set of a table's bits that is closed under the rules.
// Row a of I is in words 2 a and 2 a + 1 of the table, row a of H in word 128 + a, S in word 192.
// With the movers fixed a sweep closes only the rows of I that read a row which has changed. When I is closed with all its
// movers, S is.
// (Words and movers are two parameters, as in `table_rows`.)
#![tactic(auto)]

ghost use Rattle.std.specs.Prelude.{◌≡◌, ℕ, ◌<◌, get_or};
ghost use Rattle.model.proofs.Laws.Sets.{Narrow};
ghost use Rattle.tables.specs.Grow.{Smallest};
ghost use Rattle.table_words.specs.BitSets.{Bits};
ghost use Rattle.table_partners.specs.Rules.{RulesClosed};
ghost use Rattle.table_movers.specs.Rules.{NestingClosed};
ghost use Rattle.table_closure.specs.Capabilities.{capabilities};
ghost use Rattle.table_closure.specs.Rounds.{NestingGrown};
ghost use Rattle.table_closure.specs.Sweeps.{Owed, Swept};

use table_words::{Kinds, Words};

// The rules of all rows that read a row which has changed, in the sweep before or in this one; the rows that changed.
fn sweep(w: &mut Words, movers: &Kinds, dirty_before: u64) -> u64
    requires { (q : ℕ) → q < 64 → Owed movers.now w.old dirty_before q }
    ensures { Swept movers.now w.old w.new result }
{
    let mut dirty: u64 = 0;
    for p in 0..64 {
        let changed = dirty_before | dirty;
        if changed & (w[2 * p] | (1u64 << p)) != 0 {
            dirty |= table_rows::close_row(w, movers, p);
        }
    }
    dirty
}

// Grows I to the least one around it that has the rules of the movers.
fn to_fixpoint(w: &mut Words, movers: &Kinds)
    ensures smallest { Smallest (NestingClosed movers.now) (Bits w.old) (Bits w.new) }
    ensures narrow { Narrow 64 w.new }
{
    let mut dirty: u64 = u64::MAX;
    // Until a sweep changes nothing: no range and no list tells beforehand how often that is.
    loop {
        let changed = sweep(w, movers, dirty);
        if changed == 0 {
            return;
        }
        dirty = changed;
    }
}

// How many pairs of a label and a capability are in I.
fn count_capabilities(w: &Words) -> u32
    ensures { result ≡ capabilities w.now 64 }
{
    (0..64).map(|label| w[1 + 2 * label].count_ones()).sum()
}

// Grows I to the least one around it that has all rules, and fills in its movers. Only the rule of open adds
// capabilities to I, and only these add movers.
fn close_nesting(w: &mut Words, partners: &Kinds, movers: &mut Kinds)
    requires { (i : ℕ) → get_or movers.old i 0 ≡ 0 }
    ensures { NestingGrown partners.now movers.new (Bits w.old) (Bits w.new) }
{
    let mut count = count_capabilities(w);
    // Until no capability is new, as above.
    loop {
        table_movers::movers_of(w, partners, movers);
        to_fixpoint(w, movers);
        let grown = count_capabilities(w);
        if grown == count {
            return;
        }
        count = grown;
    }
}

// Grows the table to the least one around it that is closed under the rules.
pub fn close(w: &mut Words, partners: &Kinds)
    ensures { Smallest (RulesClosed partners.now) (Bits w.old) (Bits w.new) }
{
    let mut movers = [0u64; table_words::KIND_WORDS];
    close_nesting(w, partners, &mut movers);
    table_suspects::close_suspects(w, &movers);
}
