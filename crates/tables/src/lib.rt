// Reading a policy and a table: refusals 7 and 8, single bits, rows.
#![tactic(auto, unfolding(model::specs::Numbers::check_as, model::specs::Numbers::number_of, model::specs::Numbers::unplaced, model::specs::Refusals::need))]

ghost use Rattle.std.specs.Prelude.{◌≡◌, true, not, ◌+◌, ◌*◌, ◌/◌, ◌<◌, length, IfOk};
ghost use Rattle.model.specs.Finite.{every};
ghost use Rattle.model.specs.Numbers.{check_as, number_of};
ghost use Rattle.model.specs.Refusals.{need};
ghost use Rattle.model.specs.Tables.{bits, policy_right, table_right, table_sized};

use model::{Cause, Refusal};

// How many bytes a table has.
pub const TABLE_BYTES: usize = 1544;

// How many bytes a row of I has: a bit for each label.
pub const ROW_BYTES: usize = 16;

// How many bytes a policy has: a class for each label.
pub const POLICY_BYTES: usize = 64;

// The classes of a policy that are not low.
pub const HIGH: u8 = 1;

pub const BOUNDARY: u8 = 2;

pub type Table = [u8; TABLE_BYTES];

// A row of I.
pub type Row = [u8; ROW_BYTES];

pub type Policy = [u8; POLICY_BYTES];

// The first bit of H.
pub const NAMES: usize = 8192;

// The first bit of S.
pub const SUSPECTS: usize = 12288;

// Bit j of a table.
#[tactic(auto, unfolding(model::specs::Tables::bit_at, model::specs::Tables::test_bit))]
pub fn bit(table: &[u8], j: usize) -> bool
    requires { j / 8 < length table.now }
    ensures { result ≡ bits table.now j }
{
    (table[j / 8] >> (j % 8)) % 2 == 1
}

// Whether refusal 7 passes a policy.
pub fn policy_right(policy: &[u8]) -> bool
    ensures { result ≡ policy_right policy.now }
{
    let Some(policy) = policy.as_array::<POLICY_BYTES>() else {
        return false;
    };
    policy[0] == 0 && policy.iter().all(|&class| class <= BOUNDARY)
}

// The array that bytes are where they are right, and the cause where they aren't.
fn gate<const N: usize>(bytes: &[u8], right: bool, cause: Cause) -> Result<&[u8; N], Refusal>
    requires { right ≡ true → length bytes.now ≡ N }
    ensures checks { check_as result ≡ need right (number_of cause) 0 }
    ensures same { IfOk result (λ passed. passed.now ≡ bytes.now) }
{
    match bytes.as_array() {
        Some(sized) if right => Ok(sized),
        _ => Err(cause.into()),
    }
}

// Refusal 7; the policy that passes.
pub fn policy_gate(policy: &[u8]) -> Result<&Policy, Refusal>
    ensures checks { check_as result ≡ need (policy_right policy.now) 7 0 }
    ensures same { IfOk result (λ passed. passed.now ≡ policy.now) }
{
    gate(policy, policy_right(policy), Cause::Policy)
}

// Whether the 64 bits from `first` on, `step` apart, are clear.
fn clear_bits(table: &Table, first: usize, step: usize) -> bool
    requires { first + step * 63 < 12352 }
    ensures { result ≡ every 64 (λ k. true) (λ k. not (bits table.now (first + step * k))) }
{
    (0..64).all(|k| !bit(table, first + step * k))
}

// Whether refusal 8 passes a table.
pub fn table_right(table: &[u8]) -> bool
    ensures { result ≡ table_right table.now }
{
    let Some(table) = table.as_array::<TABLE_BYTES>() else {
        return false;
    };
    clear_bits(table, 0, 128) && clear_bits(table, NAMES, 1)
}

// Refusal 8; the table that passes.
pub fn table_gate(table: &[u8]) -> Result<&Table, Refusal>
    ensures checks { check_as result ≡ need (table_right table.now) 8 0 }
    ensures same { IfOk result (λ passed. passed.now ≡ table.now) }
{
    gate(table, table_right(table), Cause::Table)
}

// Refusal 8 for a table to be made: its length alone.
pub fn sized_gate(table: &[u8]) -> Result<(), Refusal>
    ensures { check_as result ≡ need (table_sized table.now) 8 0 }
{
    gates::need(table.len() == TABLE_BYTES, Cause::Table, 0)
}

// Whether each bit of the row x is one in the row y: the bits that x has more, gathered.
pub fn row_included(x: &Row, y: &Row) -> bool
    ensures { result ≡ every 128 (λ k. bits x.now k) (λ k. bits y.now k) }
{
    x.iter()
        .zip(y)
        .fold(0, |extra, (&x, &y)| extra | ((x | y) ^ y))
        == 0
}
