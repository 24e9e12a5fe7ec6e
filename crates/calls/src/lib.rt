// Every call of the product, in the sequence of its definitions (Calls.antt of the model). A call is its sequence of checks
// (where it has more than one, a function of `sequences`) and then what it does where they pass; none has a precondition.
#![tactic(auto)]

ghost use Rattle.std.specs.Prelude.{◌≡◌, ◌+◌};
ghost use Rattle.model.specs.Calls.{check_answer, climb_answer, copy_after, copy_answer, exposed_answer, join_after, join_answer, make_after, make_answer, moves_after, moves_answer, row_of, row_start, run_after, run_answer, run_answers, screen_after, screen_answer, screen_answers, sheet_after, sheet_answer, step_after, step_answer, validate_answer, verdict_answer};
ghost use Rattle.model.specs.Numbers.{answer_as};
ghost use Rattle.model.specs.Joins.{four};

use model::{Above, Counts, Refusal, Screen, Tally, Verdict};

// Validation: refusals 1 to 6; the number of records.
#[tactic(auto, unfolding(model::specs::Calls::validate_answer, model::specs::Numbers::answer_as, model::specs::Numbers::check_as, model::specs::Numbers::refusal, model::specs::Refusals::answer, model::specs::Refusals::content, model::specs::Records::count))]
pub fn validate(it: &[u8]) -> Result<u16, Refusal>
    ensures { answer_as result ≡ validate_answer it.now }
{
    Ok(validity::validity(it)?.count())
}

// What stands above a record, its container and the nearest boundary ambient: refusals 1 to 6, 7; both 0 for number 0, over
// the count or a gone record.
#[tactic(auto, unfolding(model::specs::Calls::climb_answer, model::specs::Numbers::answer_as, model::specs::Numbers::check_as, model::specs::Numbers::refusal, model::specs::Refusals::answer, model::specs::Refusals::content))]
pub fn climb(it: &[u8], policy: &[u8], number: u16) -> Result<Above, Refusal>
    ensures { answer_as result ≡ climb_answer it.now policy.now number }
{
    let (valid, policy) = sequences::entry(it, policy)?;
    Ok(enclosures::enclosure_of(&valid, policy, number))
}

// The observer's sheet.
#[tactic(auto, unfolding(model::specs::Calls::sheet_answer, model::specs::Calls::sheet_after, model::specs::Numbers::answer_as, model::specs::Numbers::check_as, model::specs::Numbers::refusal, model::specs::Refusals::answer, model::specs::Refusals::content))]
pub fn sheet(it: &[u8], table: &[u8], sheet: &mut [u8]) -> Result<(), Refusal>
    ensures answer { answer_as result ≡ sheet_answer it.now table.now sheet.old }
    ensures sheet { sheet.new ≡ sheet_after it.now table.now sheet.old }
{
    let (valid, table) = sequences::showing(it, table, sheet)?;
    observer::write_sheet(&valid, table, sheet);
    Ok(())
}

// A step: refusals 1 to 6, 10, 11, 12.
#[tactic(auto, unfolding(model::specs::Calls::step_answer, model::specs::Calls::step_after, model::specs::Calls::stepping, model::specs::Calls::outcome_check, model::specs::Numbers::answer_as, model::specs::Numbers::check_as, model::specs::Numbers::refusal, model::specs::Refusals::answer, model::specs::Refusals::content, model::specs::Refusals::and_then, model::specs::Numbers::outcome_as, model::specs::Numbers::unplaced))]
pub fn step(it: &mut [u8], actor: u16, partner: u16) -> Result<(), Refusal>
    ensures answer { answer_as result ≡ step_answer it.old actor partner }
    ensures itinerary { it.new ≡ step_after it.old actor partner }
{
    validity::validity(it)?;
    steps::act(it, actor, partner)?;
    Ok(())
}

// The list of moves, written at the start of what is lent for it, and its tally: refusals 1 to 6, 15.
#[tactic(auto, unfolding(model::specs::Calls::moves_answer, model::specs::Calls::moves_after, model::specs::Numbers::answer_as, model::specs::Numbers::check_as, model::specs::Numbers::refusal, model::specs::Refusals::answer, model::specs::Refusals::content))]
pub fn moves(it: &[u8], list: &mut [u8]) -> Result<Tally, Refusal>
    ensures list { list.new ≡ moves_after it.now list.old }
    ensures answer { answer_as result ≡ moves_answer it.now list.old }
{
    let (valid, tally) = sequences::moving(it, list)?;
    move_list::write(&valid, list);
    Ok(tally)
}

// The script run.
#[tactic(auto, unfolding(model::specs::Calls::run_answer, model::specs::Calls::run_after, model::specs::Calls::run_answers, model::specs::Numbers::answer_as, model::specs::Numbers::check_as, model::specs::Numbers::refusal, model::specs::Refusals::answer, model::specs::Refusals::content))]
pub fn run(it: &mut [u8], script: &[u8], answers: &mut [u8]) -> Result<Counts, Refusal>
    ensures answer { answer_as result ≡ run_answer it.old script.now answers.old }
    ensures itinerary { it.new ≡ run_after it.old script.now answers.old }
    ensures answers { answers.new ≡ run_answers it.old script.now answers.old }
{
    sequences::running(it, script, answers)?;
    Ok(scripts::run(it, script, answers))
}

// Copies what stands beneath a replication, beside it; how many were copied: refusals 1 to 6, 17, 18.
#[tactic(auto, unfolding(model::specs::Calls::copy_answer, model::specs::Calls::copy_after, model::specs::Numbers::answer_as, model::specs::Numbers::check_as, model::specs::Numbers::refusal, model::specs::Refusals::answer, model::specs::Refusals::content))]
pub fn copy(it: &mut [u8], number: u16) -> Result<u16, Refusal>
    ensures answer { answer_as result ≡ copy_answer it.old number }
    ensures itinerary { it.new ≡ copy_after it.old number }
{
    let mut originals = [0u16; 1024];
    let mut places = [0u16; 1024];
    let (n, m) = sequences::copying(it, number, &mut originals, &mut places)?;
    copies::write(it, number, &originals[..n], &places[..m]);
    Ok(n as u16)
}

// The table check.
#[tactic(auto, unfolding(model::specs::Calls::check_answer, model::specs::Numbers::answer_as, model::specs::Numbers::check_as, model::specs::Numbers::refusal, model::specs::Refusals::answer, model::specs::Refusals::content))]
pub fn check(it: &[u8], policy: &[u8], table: &[u8]) -> Result<(), Refusal>
    ensures { answer_as result ≡ check_answer it.now policy.now table.now }
{
    sequences::checking(it, policy, table)?;
    Ok(())
}

// The maker: writes the least table and returns how many of its bits are one.
#[tactic(auto, unfolding(model::specs::Calls::make_answer, model::specs::Calls::make_after, model::specs::Numbers::answer_as, model::specs::Numbers::check_as, model::specs::Numbers::refusal, model::specs::Refusals::answer, model::specs::Refusals::content))]
pub fn make(it: &[u8], policy: &[u8], table: &mut [u8]) -> Result<u16, Refusal>
    ensures answer { answer_as result ≡ make_answer it.now policy.now table.old }
    ensures table { table.new ≡ make_after it.now policy.now table.old }
{
    let (valid, policy) = sequences::making(it, policy, table)?;
    let table = table.as_mut_array().unwrap();
    Ok(table_least::write_least(&valid, policy, table))
}

// The verdict, after the check.
#[tactic(auto, unfolding(model::specs::Calls::verdict_answer, model::specs::Numbers::answer_as, model::specs::Numbers::check_as, model::specs::Numbers::refusal, model::specs::Refusals::answer, model::specs::Refusals::content))]
pub fn verdict(it: &[u8], policy: &[u8], table: &[u8]) -> Result<Verdict, Refusal>
    ensures { answer_as result ≡ verdict_answer it.now policy.now table.now }
{
    sequences::checking(it, policy, table).map(|(p, t)| verdicts::verdict_of(p, t))
}

// Whether the verdict is exposed, after the check: it looks no further than the row in which a high label is reached.
#[tactic(auto, unfolding(model::specs::Calls::exposed_answer, model::specs::Numbers::answer_as, model::specs::Numbers::check_as, model::specs::Numbers::refusal, model::specs::Refusals::answer, model::specs::Refusals::content))]
pub fn exposed(it: &[u8], policy: &[u8], table: &[u8]) -> Result<bool, Refusal>
    ensures { answer_as result ≡ exposed_answer it.now policy.now table.now }
{
    sequences::checking(it, policy, table).map(|(p, t)| verdicts::exposed(p, t))
}

// Four itineraries as one bench: refusals 1 to 6 of each, 16, 7, 8, 9. A place that isn't used is an itinerary of no records.
#[tactic(auto, unfolding(model::specs::Calls::join_answer, model::specs::Calls::join_after, model::specs::Numbers::answer_as, model::specs::Numbers::check_as, model::specs::Numbers::refusal, model::specs::Refusals::answer, model::specs::Refusals::content))]
pub fn join(
    first: &[u8],
    second: &[u8],
    third: &[u8],
    fourth: &[u8],
    policy: &[u8],
    table: &[u8],
    buffer: &mut [u8],
) -> Result<(), Refusal>
    ensures answer { answer_as result ≡ join_answer (four first.now second.now third.now fourth.now) policy.now table.now buffer.old }
    ensures buffer { buffer.new ≡ join_after (four first.now second.now third.now fourth.now) policy.now table.now buffer.old }
{
    let members = sequences::joining(first, second, third, fourth, policy, table, buffer)?;
    joins::write(&members, buffer);
    Ok(())
}

// The row of a label as that very part of the lent table; the empty part for any other label or length.
pub fn row<'a>(table: &'a [u8], label: u8) -> &'a [u8]
    ensures content { result.now ≡ row_of table.now label }
    ensures block { result.ref_ptr.0 ≡ table.entry.ref_ptr.0 }
    ensures place { result.ref_ptr.1 ≡ table.entry.ref_ptr.1 + row_start table.now label }
{
    if table.len() != tables::TABLE_BYTES {
        return &table[0..0];
    }
    if 63 < label {
        return &table[0..0];
    }
    let at = 16 * (label as usize);
    let end = at + 16;
    &table[at..end]
}

// The screen: the verdict on the table made of the itinerary, its bits set, the steps that the script did, and the records
// not gone after it. What is made is accepted, so the verdict needs no check.
#[tactic(auto, unfolding(model::specs::Calls::screen_answer, model::specs::Calls::screen_after, model::specs::Calls::screen_answers, model::specs::Numbers::answer_as, model::specs::Numbers::check_as, model::specs::Numbers::refusal, model::specs::Refusals::answer, model::specs::Refusals::content))]
pub fn screen(
    it: &mut [u8],
    policy: &[u8],
    script: &[u8],
    answers: &mut [u8],
) -> Result<Screen, Refusal>
    ensures answer { answer_as result ≡ screen_answer it.old policy.now script.now answers.old }
    ensures itinerary { it.new ≡ screen_after it.old policy.now script.now answers.old }
    ensures answers { answers.new ≡ screen_answers it.old policy.now script.now answers.old }
{
    let policy = sequences::screening(it, policy, script, answers)?;
    Ok(screens::screen(it, policy, script, answers))
}
