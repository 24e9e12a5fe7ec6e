// What a screen does where its checks pass: a table of its own is made and judged, and then the script is run.
#![tactic(auto)]

ghost use Rattle.std.specs.Prelude.{◌≡◌};
ghost use Rattle.model.specs.Calls.{screen_after, screen_answer, screen_answers, screening};
ghost use Rattle.model.specs.Refusals.{done, pass};

use model::Screen;
use records::Itinerary;
use tables::{Policy, Table};

// The screen with a lent table to make.
fn screen_with(
    it: &mut [u8],
    policy: &Policy,
    script: &[u8],
    answers: &mut [u8],
    table: &mut Table,
) -> Screen
    requires { screening it.old policy.now script.now answers.old ≡ pass }
    ensures answer { done result ≡ screen_answer it.old policy.now script.now answers.old }
    ensures itinerary { it.new ≡ screen_after it.old policy.now script.now answers.old }
    ensures answers { answers.new ≡ screen_answers it.old policy.now script.now answers.old }
{
    let ones = table_least::write_least(&Itinerary { bytes: it }, policy, table);
    let verdict = verdicts::verdict_of(policy, table);
    let counts = scripts::run(it, script, answers);
    Screen {
        verdict,
        ones,
        counts,
        records: scripts::not_gone(it),
    }
}

// The verdict on the table made of the itinerary, its bits set, the steps that the script did, and the records not gone
// after it. What is made is accepted, so the verdict needs no check.
pub fn screen(it: &mut [u8], policy: &Policy, script: &[u8], answers: &mut [u8]) -> Screen
    requires { screening it.old policy.now script.now answers.old ≡ pass }
    ensures answer { done result ≡ screen_answer it.old policy.now script.now answers.old }
    ensures itinerary { it.new ≡ screen_after it.old policy.now script.now answers.old }
    ensures answers { answers.new ≡ screen_answers it.old policy.now script.now answers.old }
{
    let mut table = [0u8; tables::TABLE_BYTES];
    screen_with(it, policy, script, answers, &mut table)
}
