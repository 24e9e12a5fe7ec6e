// The labels an observer may reach from the environment, and the verdict on a table that holds.
#![tactic(auto)]

ghost use Rattle.std.specs.Prelude.{◌≡◌, ℕ, ◌<◌};
ghost use Rattle.model.specs.Finite.{some_of};
ghost use Rattle.model.specs.Tables.{bits, parts};
ghost use Rattle.model.specs.Verdicts.{exposed, in_r, marked, verdict_of};
ghost use Rattle.tables.specs.Grow.{Smallest};
ghost use Rattle.verdicts.specs.Reach.{Highs, LowestPassing, Origin, RowReached, Until};

use model::Verdict;
use tables::{Policy, Table};

// A set of labels.
type Labels = [bool; 64];

// The set with the environment alone.
fn origin() -> Labels
    ensures { Origin (marked result) }
{
    let mut r = [false; 64];
    r[0] = true;
    r
}

// The set with the labels that may stand directly in x, a number below 64 (as in `table_rows`).
fn with_row(table: &Table, x: usize, mut r: Labels) -> Labels
    requires { x < 64 }
    ensures { Smallest (RowReached (bits table.now) x) (marked r) (marked result) }
{
    for k in 0..64 {
        r[k] |= tables::bit(table, 128 * x + k);
    }
    r
}

// The lowest label that passes the test, if any.
#[tactic(auto, unfolding(crate::specs::Reach::LowestPassing))]
fn lowest<F: Fn(usize) -> bool>(passes: F) -> Option<u8>
    requires { (k : ℕ) → k < 64 → F.pre passes k }
    ensures { LowestPassing (F.post passes) result }
{
    for k in 0..64u8 {
        if passes(k as usize) {
            return Some(k);
        }
    }
    None
}

// The high labels of the policy. (A loop: std's map would move the policy into an iterator first.)
fn highs(policy: &Policy) -> Labels
    ensures { Highs policy.now (marked result) }
{
    let mut q = [false; 64];
    for k in 0..64 {
        q[k] = policy[k] == tables::HIGH;
    }
    q
}

// Whether the two sets have a label in common. It goes through all of them, with no way out of the loop, for the compiler
// to take many at a time.
fn meets(r: Labels, stop: Labels) -> bool
    ensures { result ≡ some_of 64 (marked r) (marked stop) }
{
    let mut met = false;
    for k in 0..64 {
        met = (r[k] & stop[k]) | met;
    }
    met
}

// The reached labels, until one of them is a label to stop at: each label goes one step on, once, unless it is a boundary. (A
// `for` has no place here: what is to go on grows as the loop runs. Policy and table are two parameters, as in the definitions;
// a struct of both would be taken apart in each body.)
fn reach_until(policy: &Policy, table: &Table, stop: Labels) -> Labels
    ensures { Until (in_r (parts (bits table.now)) policy.now) (marked stop) (marked result) }
{
    let mut r = origin();
    let mut seen = [false; 64];
    loop {
        if meets(r, stop) {
            return r;
        }
        let Some(k) = lowest(|k| r[k] & !seen[k]) else {
            return r;
        };
        let x = k as usize;
        seen[x] = true;
        if policy[x] != tables::BOUNDARY {
            r = with_row(table, x, r);
        }
    }
}

// The reached labels.
fn reach(policy: &Policy, table: &Table) -> Labels
    ensures { marked result ≡ in_r (parts (bits table.now)) policy.now }
{
    reach_until(policy, table, [false; 64])
}

// Whether the verdict is exposed: the search ends with the row in which the first high label is reached. The environment's own
// row is looked at before any set is made.
pub fn exposed(policy: &Policy, table: &Table) -> bool
    ensures { result ≡ exposed (parts (bits table.now)) policy.now }
{
    if policy[0] != tables::BOUNDARY {
        if let Some(_) = lowest(|k| (policy[k] == tables::HIGH) & tables::bit(table, k)) {
            return true;
        }
    }
    let high = highs(policy);
    let r = reach_until(policy, table, high);
    meets(r, high)
}

// The verdict on a table.
pub fn verdict_of(policy: &Policy, table: &Table) -> Verdict
    ensures { result ≡ verdict_of (parts (bits table.now)) policy.now }
{
    let r = reach(policy, table);
    if let Some(k) = lowest(|k| r[k] & (policy[k] == tables::HIGH)) {
        return Verdict::Exposed(k);
    }
    match lowest(|k| r[k] & tables::bit(table, tables::SUSPECTS + k)) {
        Some(k) => Verdict::Hinted(k),
        None => Verdict::Sealed,
    }
}
