// The least set of suspects around a table's that has the rules of the movers; I stays as it is.
// (A label is a number below 64, and words and movers are two parameters, as in `table_rows`.)
#![tactic(auto)]

ghost use Rattle.std.specs.Prelude.{◌≡◌, ℕ, ◌<◌, get_or};
ghost use Rattle.tables.specs.Grow.{Smallest};
ghost use Rattle.table_words.specs.BitSets.{Bits};
ghost use Rattle.table_movers.specs.Rules.{SuspectsClosed};
ghost use Rattle.table_suspects.specs.Suspects.{MadeSuspect};

use table_words::{Kinds, Ones, Words};

// The labels that are suspect if b is.
fn made_suspect(w: &Words, movers: &Kinds, b: usize) -> u64
    requires { b < 64 }
    ensures { MadeSuspect w.now movers.now b 64 result }
{
    let entering = movers[b];
    let leaving = w[2 * b] & movers[64 + b];
    let opening = movers[128 + b];
    let mut found: u64 = 0;
    for outer in 0..64 {
        let row = w[2 * outer];
        if table_words::bit_of(row, b) {
            found |= (row & entering) | leaving | (opening & (1u64 << outer));
        }
    }
    found
}

// Grows S to the least one around it that has the rules of the movers: each suspect is taken once.
pub fn close_suspects(w: &mut Words, movers: &Kinds)
    ensures smallest { Smallest (SuspectsClosed movers.now) (Bits w.old) (Bits w.new) }
    ensures rows_kept { (i : ℕ) → i < 192 → get_or w.new i 0 ≡ get_or w.old i 0 }
{
    let mut suspects = w[table_words::SUSPECTS];
    let mut unseen = u64::MAX;
    // The set that is taken from grows meanwhile, which an iterator over it wouldn't see.
    while let Some(b) = Ones(suspects & unseen).next() {
        suspects |= made_suspect(w, movers, b);
        unseen ^= 1u64 << b;
    }
    w[table_words::SUSPECTS] = suspects;
}
