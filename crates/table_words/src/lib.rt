// Bytes as words of 64 bits, and back; and the operations on words that the rules of a table are made of.
#![tactic(auto)]

ghost use Rattle.std.specs.Prelude.{◌≡◌, ◌+◌, ◌*◌, ◌<◌, length};
ghost use Rattle.model.proofs.Laws.Sets.{Narrow};
ghost use Rattle.model.specs.Tables.{bit_at, bits, test_bit};
ghost use Rattle.table_words.specs.Adds.{Adds};
ghost use Rattle.table_words.specs.Transposes.{Scatter, Transposed};
ghost use Rattle.table_words.specs.Words.{Stored};
ghost use Rattle.std.specs.Iterator.{at_most};
ghost use Rattle.table_words.specs.Ones.{TakesLowest};

// Bits and bytes of a word.
pub const BITS: usize = 64;

pub const BYTES: usize = 8;

// Words of a table: two to a row of I, one to a row of H, and S.
pub const TABLE_WORDS: usize = 193;

// Words of partners and of movers: one to each kind and label.
pub const KIND_WORDS: usize = 192;

// The word of S in a table.
pub const SUSPECTS: usize = 192;

// A table as words.
pub type Words = [u64; TABLE_WORDS];

// Partners or movers: for each kind and label a set of labels. (One array and not three of 64: what all kinds have in common
// is then one loop over one index, and the laws speak of one index.)
pub type Kinds = [u64; KIND_WORDS];

// For each label a set of labels.
pub type Columns = [u64; BITS];

// The bytes' bits as words, of as many bytes as the words have.
pub fn load(bytes: &[u8], words: &mut [u64])
    requires { length bytes.now ≡ length words.old * 8 }
    ensures { bit_at 64 words.new ≡ bits bytes.now }
{
    let (chunks, _) = bytes.as_chunks::<BYTES>();
    for i in 0..words.len() {
        words[i] = u64::from_le_bytes(chunks[i]);
    }
}

// The words' bits as bytes. A word's bytes go together: one store, compiled.
pub fn store(words: &[u64], bytes: &mut [u8])
    requires { length bytes.old ≡ length words.now * 8 }
    ensures same_bits { bits bytes.new ≡ bit_at 64 words.now }
    ensures narrow { Narrow 8 bytes.new }
{
    for i in 0..words.len() {
        let at = BYTES * i;
        bytes[at..at + BYTES].copy_from_slice(&words[i].to_le_bytes());
    }
}

// The numbers of a word's one bits, the lowest first.
#[derive(Drop)]
pub struct Ones(pub u64);

impl Iterator for Ones {
    type Item = usize;

    ghost next_gives = { TakesLowest };

    ghost remaining = { λ s. at_most s.0 };

    fn next(&mut self) -> Option<usize> {
        if self.0 == 0 {
            return None;
        }
        let k = self.0.trailing_zeros() as usize;
        self.0 &= self.0 - 1;
        Some(k)
    }
}

// Whether bit k of x is one.
#[tactic(auto, unfolding(model::specs::Tables::test_bit))]
pub fn bit_of(x: u64, k: usize) -> bool
    requires { k < 64 }
    ensures { result ≡ test_bit x k }
{
    (x >> k) % 2 == 1
}

// Adds `value` to word base + k for each bit k of `bits`.
pub fn scatter(base: usize, bits: u64, value: u64, words: &mut [u64])
    requires { base + 63 < length words.old }
    ensures { Adds (Scatter base bits value) (Scatter base bits value) words.old words.new }
{
    for k in Ones(bits) {
        words[base + k] |= value;
    }
}

// Transposes 64 words, `step` apart: bit t of word first + step * k goes to bit k of word t.
pub fn transpose(words: &[u64], first: usize, step: usize, columns: &mut Columns)
    requires { first + step * 63 < length words.now }
    ensures { Adds (Transposed words.now first step 64) (Transposed words.now first step 64) columns.old columns.new }
{
    for k in 0..BITS {
        scatter(0, words[first + step * k], 1u64 << k, columns);
    }
}
