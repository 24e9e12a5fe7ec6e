// The calls of the library as functions for callers in other languages. What a caller owes is in include/birnsket.h.
#![tactic(auto, unfolding(packing::specs::Packing::version))]

ghost use Rattle.std.specs.Prelude.{◌≡◌};
ghost use Rattle.model.specs.Calls.{check_answer, climb_answer, copy_after, copy_answer, exposed_answer, join_after, join_answer, make_after, make_answer, moves_after, moves_answer, run_after, run_answer, run_answers, screen_after, screen_answer, screen_answers, sheet_after, sheet_answer, step_after, step_answer, validate_answer, verdict_answer};
ghost use Rattle.model.specs.Joins.{four};
ghost use Rattle.packing.specs.Packing.{climb_result, copy_result, done_result, exposed_result, make_result, moves_result, row_result, run_result, screen_result, validate_result, verdict_result, version};

use packing::climb::HubClimbResult;
use packing::copy::HubCopyResult;
use packing::exposed::HubExposedResult;
use packing::make::HubMakeResult;
use packing::moves::HubMovesResult;
use packing::row::HubRowResult;
use packing::run::HubRunResult;
use packing::screen::HubScreenResult;
use packing::status::HubStatus;
use packing::validate::HubValidateResult;
use packing::verdict::HubVerdictResult;

// The version of this interface; which change raises which part of it is in include/birnsket.h.
#[unsafe(no_mangle)]
pub extern "C" fn hub_version() -> u32
    ensures { result ≡ version }
{
    262144
}

// Validates an itinerary: the number of records.
#[unsafe(no_mangle)]
pub extern "C" fn hub_validate(it: &[u8]) -> HubValidateResult
    ensures { result ≡ validate_result (validate_answer it.now) }
{
    calls::validate(it).into()
}

// What stands above a record: its container's label, and the number of the nearest boundary ambient.
#[unsafe(no_mangle)]
pub extern "C" fn hub_climb(it: &[u8], policy: &[u8], number: u16) -> HubClimbResult
    ensures { result ≡ climb_result (climb_answer it.now policy.now number) }
{
    calls::climb(it, policy, number).into()
}

// Writes the observer's sheet.
#[unsafe(no_mangle)]
pub extern "C" fn hub_sheet(it: &[u8], table: &[u8], sheet: &mut [u8]) -> HubStatus
    ensures answer { result ≡ done_result (sheet_answer it.now table.now sheet.old) }
    ensures sheet { sheet.new ≡ sheet_after it.now table.now sheet.old }
{
    calls::sheet(it, table, sheet).into()
}

// Executes a step.
#[unsafe(no_mangle)]
pub extern "C" fn hub_step(it: &mut [u8], actor: u16, partner: u16) -> HubStatus
    ensures answer { result ≡ done_result (step_answer it.old actor partner) }
    ensures itinerary { it.new ≡ step_after it.old actor partner }
{
    calls::step(it, actor, partner).into()
}

// Runs a script: the ins, outs and opens done.
#[unsafe(no_mangle)]
pub extern "C" fn hub_run(it: &mut [u8], script: &[u8], answers: &mut [u8]) -> HubRunResult
    ensures answer { result ≡ run_result (run_answer it.old script.now answers.old) }
    ensures itinerary { it.new ≡ run_after it.old script.now answers.old }
    ensures answers { answers.new ≡ run_answers it.old script.now answers.old }
{
    calls::run(it, script, answers).into()
}

// Copies what stands beneath a replication, beside it: how many were copied.
#[unsafe(no_mangle)]
pub extern "C" fn hub_copy(it: &mut [u8], number: u16) -> HubCopyResult
    ensures answer { result ≡ copy_result (copy_answer it.old number) }
    ensures itinerary { it.new ≡ copy_after it.old number }
{
    calls::copy(it, number).into()
}

// Writes the list of moves: how many pairs of actor and partner would answer 0, 10, 11 and 12.
#[unsafe(no_mangle)]
pub extern "C" fn hub_moves(it: &[u8], list: &mut [u8]) -> HubMovesResult
    ensures answer { result ≡ moves_result (moves_answer it.now list.old) }
    ensures list { list.new ≡ moves_after it.now list.old }
{
    calls::moves(it, list).into()
}

// Joins four itineraries.
#[unsafe(no_mangle)]
pub extern "C" fn hub_join(
    first: &[u8],
    second: &[u8],
    third: &[u8],
    fourth: &[u8],
    policy: &[u8],
    table: &[u8],
    buffer: &mut [u8],
) -> HubStatus
    ensures answer { result ≡ done_result (join_answer (four first.now second.now third.now fourth.now) policy.now table.now buffer.old) }
    ensures buffer { buffer.new ≡ join_after (four first.now second.now third.now fourth.now) policy.now table.now buffer.old }
{
    calls::join(first, second, third, fourth, policy, table, buffer).into()
}

// Checks a table.
#[unsafe(no_mangle)]
pub extern "C" fn hub_check(it: &[u8], policy: &[u8], table: &[u8]) -> HubStatus
    ensures { result ≡ done_result (check_answer it.now policy.now table.now) }
{
    calls::check(it, policy, table).into()
}

// Makes the least table: how many of its bits are one.
#[unsafe(no_mangle)]
pub extern "C" fn hub_make(it: &[u8], policy: &[u8], table: &mut [u8]) -> HubMakeResult
    ensures answer { result ≡ make_result (make_answer it.now policy.now table.old) }
    ensures table { table.new ≡ make_after it.now policy.now table.old }
{
    calls::make(it, policy, table).into()
}

// Gives the verdict: 1 for exposed, 2 for hinted, 3 for sealed, and its label.
#[unsafe(no_mangle)]
pub extern "C" fn hub_verdict(it: &[u8], policy: &[u8], table: &[u8]) -> HubVerdictResult
    ensures { result ≡ verdict_result (verdict_answer it.now policy.now table.now) }
{
    calls::verdict(it, policy, table).into()
}

// Whether the verdict is exposed: 1 for yes, 0 for no.
#[unsafe(no_mangle)]
pub extern "C" fn hub_exposed(it: &[u8], policy: &[u8], table: &[u8]) -> HubExposedResult
    ensures { result ≡ exposed_result (exposed_answer it.now policy.now table.now) }
{
    calls::exposed(it, policy, table).into()
}

// The row of a label in the caller's table: its offset and its length, both 0 for the empty part. (An exported function
// returns no reference.)
#[tactic(auto, unfolding(packing::specs::Packing::row_result, model::specs::Calls::row_of, model::specs::Calls::row_start, model::specs::Calls::part_if, model::specs::Calls::start_if, model::specs::Tables::table_sized))]
#[unsafe(no_mangle)]
pub extern "C" fn hub_row(table: &[u8], label: u8) -> HubRowResult
    ensures { result ≡ row_result table.now label }
{
    let row = calls::row(table, label);
    if row.len() == 16 {
        HubRowResult::new(16 * (label as u32), 16)
    } else {
        HubRowResult::new(0, 0)
    }
}

// Makes the table, gives its verdict and runs the script: the verdict as in hub_verdict and its label, the table's bits
// set, the ins, outs and opens done, and the records not gone.
#[unsafe(no_mangle)]
pub extern "C" fn hub_screen(
    it: &mut [u8],
    policy: &[u8],
    script: &[u8],
    answers: &mut [u8],
) -> HubScreenResult
    ensures answer { result ≡ screen_result (screen_answer it.old policy.now script.now answers.old) }
    ensures itinerary { it.new ≡ screen_after it.old policy.now script.now answers.old }
    ensures answers { answers.new ≡ screen_answers it.old policy.now script.now answers.old }
{
    calls::screen(it, policy, script, answers).into()
}
