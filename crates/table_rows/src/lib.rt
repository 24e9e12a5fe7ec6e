// The rules of one row of I, by movers: each is a few word operations on two rows.
// Row a of I is in words 2 a and 2 a + 1 of the table, row a of H in word 128 + a, S in word 192.
// (A label is a number that each function asks to be below 64: a type of labels would be taken apart at each use as an index.
// Words and movers are two parameters, since the ones are written while the others are read.)
#![tactic(auto)]

ghost use Rattle.std.specs.Prelude.{◌<◌};
ghost use Rattle.tables.specs.Grow.{Grown};
ghost use Rattle.table_words.specs.BitSets.{Bits, WordHas};
ghost use Rattle.table_movers.specs.Rules.{PairClosed, RowClosed};
ghost use Rattle.table_rows.specs.Changes.{RowOfWord, RowsChanged};
ghost use Rattle.table_rows.specs.Rows.{Reads, RowIn, RowOfPair};

use table_words::{Kinds, Ones, Words};

// Adds the labels to word i; the word's row, if it changed, as a set.
fn or_into(w: &mut Words, i: usize, labels: u64) -> u64
    requires { i < 128 }
    ensures grown { Grown (WordHas 64 i labels) (WordHas 64 i labels) (Bits w.old) (Bits w.new) }
    ensures rows_changed { RowsChanged (RowOfWord i) w.old w.new result }
{
    let old = w[i];
    let new = old | labels;
    if new == old {
        return 0;
    }
    w[i] = new;
    1u64 << (i / 2)
}

// Open: adds row b to row p; the rows that changed.
fn or_row(w: &mut Words, p: usize, b: usize) -> u64
    requires p_bound { p < 64 }
    requires b_bound { b < 64 }
    ensures grown { Grown (RowIn p b) (RowIn p b) (Bits w.old) (Bits w.new) }
    ensures rows_changed { RowsChanged (RowOfPair p b) w.old w.new result }
{
    let low = w[2 * b];
    let high = w[2 * b + 1];
    let ambients = or_into(w, 2 * p, low);
    ambients | or_into(w, 2 * p + 1, high)
}

// The rules for b in row p, once; the rows that changed.
fn close_pair(w: &mut Words, movers: &Kinds, p: usize, b: usize) -> u64
    requires p_bound { p < 64 }
    requires b_bound { b < 64 }
    ensures grown { Grown (PairClosed movers.now p b) (PairClosed movers.now p b) (Bits w.old) (Bits w.new) }
    ensures rows_changed { RowsChanged (RowOfPair p b) w.old w.new result }
{
    let here = w[2 * p];
    let there = w[2 * b];
    let entered = or_into(w, 2 * b, here & movers[b]);
    let exited = or_into(w, 2 * p, there & movers[64 + b]);
    let moved = entered | exited;
    if table_words::bit_of(movers[128 + b], p) {
        return moved | or_row(w, p, b);
    }
    moved
}

// The rules of row p, once; the rows that changed.
pub fn close_row(w: &mut Words, movers: &Kinds, p: usize) -> u64
    requires { p < 64 }
    ensures grown { Grown (RowClosed movers.now p) (RowClosed movers.now p) (Bits w.old) (Bits w.new) }
    ensures rows_changed { RowsChanged (Reads w.new p) w.old w.new result }
{
    let mut changed: u64 = 0;
    for b in Ones(w[2 * p]) {
        changed |= close_pair(w, movers, p, b);
    }
    changed
}
