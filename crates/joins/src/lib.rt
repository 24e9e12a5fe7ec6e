// Joining: refusal 16, whether a table holds for the join, and the joined bytes. A member's records are put behind those of the
// members before it.
#![tactic(auto)]

ghost use Rattle.std.specs.Prelude.{◌≡◌, true, ◌+◌, ◌*◌, ◌<◌, ◌≤◌, length, map};
ghost use Rattle.model.specs.Analysis.{holds, permit_all};
ghost use Rattle.model.specs.Joins.{behind, join, join_bytes, set_right, shifted};
ghost use Rattle.model.specs.Numbers.{check_as};
ghost use Rattle.model.specs.Records.{count, encode, records};
ghost use Rattle.model.specs.Refusals.{need};
ghost use Rattle.model.specs.Requests.{Valid};
ghost use Rattle.model.specs.Tables.{bits, parts};
ghost use Rattle.table_holds.specs.Tests.{nesting_holds};
ghost use Rattle.table_partners.specs.Rules.{AllRules};
ghost use Rattle.table_rules.specs.Tests.{Decides};
ghost use Rattle.text_put.specs.Puts.{Put};

use model::{Cause, Refusal};
use records::Itinerary;
use tables::{Policy, Table};

// Four members, in their order. (A loop goes over them as a slice: behind one over an array nothing is known of its length.)
pub type Members<'a> = [Itinerary<'a>; 4];

// How many records the members have together.
pub fn count(members: &Members) -> usize
    ensures { result ≡ length (join members.now) }
{
    let all: &[Itinerary] = members;
    let mut n = 0;
    for member in all {
        n += member.count() as usize;
    }
    n
}

// Refusal 16.
#[tactic(auto, unfolding(model::specs::Joins::set_right, model::specs::Numbers::number_of))]
pub fn set_gate(members: &Members, buffer: &[u8]) -> Result<(), Refusal>
    ensures { check_as result ≡ need (set_right members.now buffer.now) 16 0 }
{
    let n = count(members);
    gates::need(n <= 1024 && buffer.len() == 8 * n, Cause::Set, 0)
}

// A parent's number behind so many records.
fn shifted(before: u16, parent: u16) -> u16
    requires { before + parent < 65536 }
    ensures { result ≡ shifted before parent }
{
    if parent == 0 { 0 } else { before + parent }
}

// Puts a member's records behind those before it, and answers how many there are then.
fn put_member(buffer: &mut [u8], before: u16, member: &Itinerary) -> u16
    requires few { length buffer.old ≤ 8192 }
    requires room { 8 * (before + count member.now) ≤ length buffer.old }
    ensures { Put buffer.old (8 * before) (encode (map (behind before) (records member.now))) buffer.new (8 * result) }
{
    let bytes = member.bytes;
    let n = member.count();
    for i in 0..n {
        let r = records::record_in(bytes, i + 1);
        let parent = shifted(before, r.parent);
        records::put_record(buffer, before + i + 1, records::with_parent(r, parent));
    }
    before + n
}

// Writes the joined bytes.
pub fn write(members: &Members, buffer: &mut [u8])
    requires { set_right members.now buffer.old ≡ true }
    ensures { buffer.new ≡ join_bytes members.now }
{
    let all: &[Itinerary] = members;
    let mut before = 0;
    for member in all {
        before = put_member(buffer, before, member);
    }
}

// Whether the records of all members may stand where they stand.
fn nesting_holds(members: &Members, policy: &Policy, table: &Table) -> bool
    requires { Valid members.now }
    ensures { result ≡ nesting_holds (join members.now) (parts (bits table.now)) }
{
    let all: &[Itinerary] = members;
    for member in all {
        if !table_holds::nesting_holds(member, policy, table) {
            return false;
        }
    }
    true
}

// Whether the rules of all members' capabilities hold: in one pass over the table.
fn rules_hold(members: &Members, table: &Table) -> bool
    requires { Valid members.now }
    ensures { Decides result (AllRules (join members.now) (bits table.now)) }
{
    let mut w = [0u64; table_words::TABLE_WORDS];
    table_words::load(table, &mut w);
    let mut partners = [0u64; table_words::KIND_WORDS];
    let all: &[Itinerary] = members;
    for member in all {
        table_partners::partners_of(member, &w, &mut partners);
    }
    table_rules::closed(table, &w, &partners)
}

// Whether the table holds for the join, of which nothing is written yet. (It is asked that the members are valid: what a type says is
// not known of an array's elements.)
pub fn hold(members: &Members, policy: &Policy, table: &Table) -> bool
    requires { Valid members.now }
    ensures { result ≡ holds permit_all policy.now (join members.now) (parts (bits table.now)) }
{
    table_holds::highs_hold(policy, table)
        && nesting_holds(members, policy, table)
        && rules_hold(members, table)
}
