// Running a script on a valid itinerary. (It is a clause that it is valid, and no `Itinerary`: that would lend what is written.)
#![tactic(auto)]

ghost use Rattle.std.specs.Prelude.{◌≡◌, ◌%◌, ◌+◌, ◌<◌, ◌≤◌, true, length};
ghost use Rattle.model.specs.Analysis.{permit_all};
ghost use Rattle.model.specs.Finite.{one_if, unequal};
ghost use Rattle.model.specs.Records.{byte, records, word};
ghost use Rattle.model.specs.Numbers.{check_as, outcome_as};
ghost use Rattle.model.specs.Refusals.{need, pass};
ghost use Rattle.model.specs.Scripts.{after_list, answers_of, counts_of, not_gone, outcomes, script_right, steps_in};
ghost use Rattle.model.specs.Steps.{answer_of};
ghost use Rattle.model.specs.Validity.{validity};
ghost use Rattle.scripts.specs.Counted.{counted};

use model::{Capability, Cause, Counts, Rec, Refusal};

// Whether a script has whole steps, not too many, and a place for the answer of each.
fn script_right(script: &[u8], room: usize) -> bool
    ensures { result ≡ script_right script.now room }
{
    let len = script.len();
    (len % 4 == 0) & ((len <= 4096) & (room == len / 4))
}

// Refusal 13, for room answers.
#[tactic(auto, unfolding(model::specs::Numbers::number_of))]
pub fn script_gate(script: &[u8], room: usize) -> Result<(), Refusal>
    ensures { check_as result ≡ need (script_right script.now room) 13 0 }
{
    gates::need(script_right(script, room), Cause::Script, 0)
}

// The number in bytes j and j + 1 of a script.
fn word_at(script: &[u8], j: usize) -> u16
    requires { j + 1 < length script.now }
    ensures { result ≡ word (byte script.now j) (byte script.now (j + 1)) }
{
    records::word(script[j], script[j + 1])
}

// The answer byte of a step. (A From would be for a Result and a byte, neither of which is ours.)
#[tactic(auto, unfolding(model::specs::Numbers::outcome_as, model::specs::Steps::answer_of))]
fn number_of(outcome: Result<Capability, Cause>) -> u8
    ensures { result ≡ answer_of (outcome_as outcome) }
{
    match outcome {
        Ok(_) => 0,
        Err(cause) => cause.number(),
    }
}

// The counts with one step more.
fn counted(c: Counts, outcome: Result<Capability, Cause>) -> Counts
    requires ins_few { c.ins < 65535 }
    requires outs_few { c.outs < 65535 }
    requires opens_few { c.opens < 65535 }
    ensures { result ≡ counted c (outcome_as outcome) }
{
    let Ok(k) = outcome else {
        return c;
    };
    match k {
        Capability::In => Counts {
            ins: c.ins + 1,
            ..c
        },
        Capability::Out => Counts {
            outs: c.outs + 1,
            ..c
        },
        Capability::Open => Counts {
            opens: c.opens + 1,
            ..c
        },
    }
}

// The steps of a script, in order, on an itinerary that is known to be valid: a step keeps it valid.
pub fn run(it: &mut [u8], script: &[u8], answers: &mut [u8]) -> Counts
    requires valid { validity it.old ≡ pass }
    requires right { script_right script.now (length answers.old) ≡ true }
    ensures counts { result ≡ counts_of (outcomes permit_all it.old (steps_in script.now)) }
    ensures itinerary { it.new ≡ after_list permit_all it.old (steps_in script.now) }
    ensures answers { answers.new ≡ answers_of permit_all it.old (steps_in script.now) }
{
    let mut c = Counts {
        ins: 0,
        outs: 0,
        opens: 0,
    };
    for k in 0..answers.len() {
        let actor = word_at(script, 4 * k);
        let partner = word_at(script, 4 * k + 2);
        let outcome = steps::act(it, actor, partner);
        answers[k] = number_of(outcome);
        c = counted(c, outcome);
    }
    c
}

// One for a record that is not gone.
#[tactic(auto, unfolding(model::specs::Finite::one_if, model::specs::Finite::unequal))]
fn present(r: Rec) -> u16
    ensures counted { result ≡ one_if (unequal r.kind 0) }
    ensures one_at_most { result ≤ 1 }
{
    if r.is_gone() { 0 } else { 1 }
}

// How many records are not gone.
pub fn not_gone(it: &[u8]) -> u16
    requires whole { length it.now % 8 ≡ 0 }
    requires few { length it.now ≤ 8192 }
    ensures { result ≡ not_gone (records it.now) }
{
    let mut sum: u16 = 0;
    for i in 0..(it.len() / 8) as u16 {
        sum += present(records::record_at(it, i + 1));
    }
    sum
}
