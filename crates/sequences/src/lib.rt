// The sequences of documents 01 and 02: for each call its causes to refuse, in their order. A sequence starts with what every call
// looks for first, so a cause that comes behind it goes into one place; it answers the itinerary, the policy and the table
// that passed. (The runs' sequences answer no itinerary: they write it, and that of an answer would lend it. Policy
// and table are a tuple, since what goes on takes them apart again.)
#![tactic(auto, unfolding(model::specs::Calls::showing, model::specs::Calls::moving, model::specs::Calls::running, model::specs::Calls::entry, model::specs::Calls::comparing, model::specs::Calls::checking, model::specs::Calls::making, model::specs::Calls::screening, model::specs::Numbers::check_as, model::specs::Numbers::number_of, model::specs::Refusals::and_then))]

ghost use Rattle.std.specs.Prelude.{◌≡◌, IfOk};
ghost use Rattle.model.specs.Analysis.{permit_all};
ghost use Rattle.copies.specs.Listed.{Listed};
ghost use Rattle.model.specs.Calls.{checking, comparing, copying, entry, joining, making, moving, running, screening, showing};
ghost use Rattle.model.specs.Copies.{beneath, gones};
ghost use Rattle.model.specs.Joins.{four, members_check};
ghost use Rattle.model.specs.MoveList.{tally_of};
ghost use Rattle.model.specs.Numbers.{check_as};
ghost use Rattle.model.specs.Records.{records};

use joins::Members;
use model::{Cause, Refusal, Tally};
use records::Itinerary;
use tables::{Policy, Table};

// Refusals 1 to 6, 8, 14.
pub fn showing<'a, 'b>(
    it: &'a [u8],
    table: &'b [u8],
    sheet: &[u8],
) -> Result<(Itinerary<'a>, &'b Table), Refusal>
    ensures checks { check_as result ≡ showing it.now table.now sheet.now }
    ensures same_itinerary { IfOk result (λ passed. passed.0 ≡ it.now) }
    ensures same_table { IfOk result (λ passed. passed.1.now ≡ table.now) }
{
    let valid = validity::validity(it)?;
    let passed = tables::table_gate(table)?;
    gates::need(sheet.len() == it.len(), Cause::Sheet, 0)?;
    Ok((valid, passed))
}

// Refusals 1 to 6, 15; the list's tally too, by which its length is known.
pub fn moving<'a>(it: &'a [u8], list: &[u8]) -> Result<(Itinerary<'a>, Tally), Refusal>
    ensures checks { check_as result ≡ moving it.now list.now }
    ensures same { IfOk result (λ passed. passed.0 ≡ it.now) }
    ensures told { IfOk result (λ passed. passed.1 ≡ tally_of permit_all (records it.now)) }
{
    let valid = validity::validity(it)?;
    let tally = move_list::list_gate(&valid, list)?;
    Ok((valid, tally))
}

// Refusals 1 to 6, 13.
pub fn running(it: &[u8], script: &[u8], answers: &[u8]) -> Result<(), Refusal>
    ensures { check_as result ≡ running it.now script.now answers.now }
{
    validity::validity(it)?;
    scripts::script_gate(script, answers.len())
}

// Refusals 1 to 6, 17, 18; lists the records beneath and the gone ones, by number, and answers how many of each.
#[tactic(auto, unfolding(model::specs::Calls::copying, model::specs::Copies::copy_fits, model::specs::Numbers::check_as, model::specs::Numbers::number_of, model::specs::Refusals::and_then))]
pub fn copying(
    it: &[u8],
    number: u16,
    originals: &mut [u16; 1024],
    places: &mut [u16; 1024],
) -> Result<(usize, usize), Refusal>
    ensures checks { check_as result ≡ copying it.now number }
    ensures originals { IfOk result (λ n. Listed (beneath (records it.now) number) originals.new n.0) }
    ensures places { IfOk result (λ n. Listed (gones (records it.now)) places.new n.1) }
{
    let valid = validity::validity(it)?;
    copies::replication_gate(&valid, number)?;
    let n = copies::list_beneath(&valid, number, originals);
    let m = copies::list_gones(&valid, places);
    gates::need(n <= m, Cause::Room, 0)?;
    Ok((n, m))
}

// Refusals 1 to 6, 7.
pub fn entry<'a, 'b>(it: &'a [u8], policy: &'b [u8]) -> Result<(Itinerary<'a>, &'b Policy), Refusal>
    ensures checks { check_as result ≡ entry it.now policy.now }
    ensures same_itinerary { IfOk result (λ passed. passed.0 ≡ it.now) }
    ensures same_policy { IfOk result (λ passed. passed.1.now ≡ policy.now) }
{
    let valid = validity::validity(it)?;
    let policy = tables::policy_gate(policy)?;
    Ok((valid, policy))
}

// Refusals 1 to 6, 7, 8.
pub fn comparing<'a, 'b>(
    it: &'a [u8],
    policy: &'b [u8],
    table: &'b [u8],
) -> Result<(Itinerary<'a>, &'b Policy, &'b Table), Refusal>
    ensures checks { check_as result ≡ comparing it.now policy.now table.now }
    ensures same_itinerary { IfOk result (λ passed. passed.0 ≡ it.now) }
    ensures same_policy { IfOk result (λ passed. passed.1.now ≡ policy.now) }
    ensures same_table { IfOk result (λ passed. passed.2.now ≡ table.now) }
{
    let (valid, policy) = entry(it, policy)?;
    let table = tables::table_gate(table)?;
    Ok((valid, policy, table))
}

// Refusals 1 to 6, 7, 8, 9: the last looks only at what the others let through.
pub fn checking<'a, 'b>(
    it: &'a [u8],
    policy: &'b [u8],
    table: &'b [u8],
) -> Result<(&'b Policy, &'b Table), Refusal>
    ensures checks { check_as result ≡ checking it.now policy.now table.now }
    ensures same_policy { IfOk result (λ passed. passed.0.now ≡ policy.now) }
    ensures same_table { IfOk result (λ passed. passed.1.now ≡ table.now) }
{
    let (valid, policy, table) = comparing(it, policy, table)?;
    gates::need(table_holds::holds(&valid, policy, table), Cause::Holds, 0)?;
    Ok((policy, table))
}

// Refusals 1 to 6 of each member, in their order; the members that pass.
#[tactic(auto, unfolding(model::specs::Joins::members_check, model::specs::Numbers::check_as, model::specs::Refusals::and_then))]
fn members<'a>(
    first: &'a [u8],
    second: &'a [u8],
    third: &'a [u8],
    fourth: &'a [u8],
) -> Result<Members<'a>, Refusal>
    ensures checks { check_as result ≡ members_check (four first.now second.now third.now fourth.now) }
    ensures same { IfOk result (λ passed. passed ≡ four first.now second.now third.now fourth.now) }
{
    Ok([
        validity::validity(first)?,
        validity::validity(second)?,
        validity::validity(third)?,
        validity::validity(fourth)?,
    ])
}

// Refusals 1 to 6 of each member, 16, 7, 8, 9. The last is asked of the members' records: nothing is joined yet.
#[tactic(auto, using(joins::specs::Sequence::by_members), unfolding(model::specs::Numbers::check_as, model::specs::Numbers::number_of, model::specs::Refusals::and_then))]
pub fn joining<'a>(
    first: &'a [u8],
    second: &'a [u8],
    third: &'a [u8],
    fourth: &'a [u8],
    policy: &[u8],
    table: &[u8],
    buffer: &[u8],
) -> Result<Members<'a>, Refusal>
    ensures checks { check_as result ≡ joining (four first.now second.now third.now fourth.now) policy.now table.now buffer.now }
    ensures same { IfOk result (λ passed. passed ≡ four first.now second.now third.now fourth.now) }
{
    let members = members(first, second, third, fourth)?;
    joins::set_gate(&members, buffer)?;
    let policy = tables::policy_gate(policy)?;
    let table = tables::table_gate(table)?;
    gates::need(joins::hold(&members, policy, table), Cause::Holds, 0)?;
    Ok(members)
}

// Refusals 1 to 6, 7, 8 by the length alone.
pub fn making<'a, 'b>(
    it: &'a [u8],
    policy: &'b [u8],
    table: &[u8],
) -> Result<(Itinerary<'a>, &'b Policy), Refusal>
    ensures checks { check_as result ≡ making it.now policy.now table.now }
    ensures same_itinerary { IfOk result (λ passed. passed.0 ≡ it.now) }
    ensures same_policy { IfOk result (λ passed. passed.1.now ≡ policy.now) }
{
    let (valid, policy) = entry(it, policy)?;
    tables::sized_gate(table)?;
    Ok((valid, policy))
}

// Refusals 1 to 6, 7, 13.
pub fn screening<'a>(
    it: &[u8],
    policy: &'a [u8],
    script: &[u8],
    answers: &[u8],
) -> Result<&'a Policy, Refusal>
    ensures checks { check_as result ≡ screening it.now policy.now script.now answers.now }
    ensures same { IfOk result (λ passed. passed.now ≡ policy.now) }
{
    let (_, policy) = entry(it, policy)?;
    scripts::script_gate(script, answers.len())?;
    Ok(policy)
}
