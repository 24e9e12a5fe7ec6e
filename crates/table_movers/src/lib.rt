// The movers of a table: by kind and partner, the labels in which some capability of this kind may stand that targets a
// name of the partner. With them each rule is a few word operations on two rows of I.
#![tactic(auto)]

ghost use Rattle.table_movers.specs.Folds.{MoversFolded};
ghost use Rattle.table_movers.specs.Movers.{Movers, OnlyMovers};
ghost use Rattle.table_words.specs.Adds.{Adds};
ghost use Rattle.table_words.specs.BitSets.{Bits};

use table_words::{Columns, Kinds, Words};

// Adds the holders of each capability label to the words of its partners, for each kind.
fn fold_partners(holders: &Columns, partners: &Kinds, movers: &mut Kinds)
    ensures { Adds (MoversFolded holders.now partners.now 192) (MoversFolded holders.now partners.now 192) movers.old movers.new }
{
    for i in 0..table_words::KIND_WORDS {
        table_words::scatter(64 * (i / 64), partners[i], holders[i % 64], movers);
    }
}

// The movers of the table w, into words that are clear or have some of them.
pub fn movers_of(w: &Words, partners: &Kinds, movers: &mut Kinds)
    requires { OnlyMovers partners.now (Bits w.now) movers.old }
    ensures { Movers partners.now (Bits w.now) movers.new }
{
    let mut holders = [0u64; table_words::BITS];
    table_words::transpose(w, 1, 2, &mut holders);
    fold_partners(&holders, partners, movers);
}
