// The lines that hubscreen shows, put into a lent text. (The text and the place are two parameters, as in text_put.)
#![tactic(auto)]

ghost use Rattle.std.specs.Prelude.{◌≡◌, ◌+◌, ◌≤◌, length, [], ◌++◌};
ghost use Rattle.model.specs.Listing.{field, last_field, listing, step_lines, verdict_word};
ghost use Rattle.model.specs.Numbers.{label_of, refusal};
ghost use Rattle.model.specs.Refusals.{done};
ghost use Rattle.model.specs.Scripts.{steps_in};
ghost use Rattle.listing.specs.Lines.{count_fields, step_line};
ghost use Rattle.text_put.specs.Puts.{Put};

use model::{Refusal, Screen, Verdict};

// Puts the line of a step: actor, partner, answer.
fn put_step(text: &mut [u8], at: usize, actor: u16, partner: u16, answer: u8) -> usize
    requires { at + length (step_line actor partner answer) ≤ length text.old }
    ensures { Put text.old at (step_line actor partner answer) text.new result }
{
    let second = text_put::put_field(text, at, actor, b' ');
    let third = text_put::put_field(text, second, partner, b' ');
    text_put::put_field(text, third, answer as u16, b'\n')
}

// Puts a line for each step of a script that has an answer.
fn put_steps(text: &mut [u8], at: usize, script: &[u8], answers: &[u8]) -> usize
    requires { at + length (step_lines (steps_in script.now) answers.now []) ≤ length text.old }
    ensures { Put text.old at (step_lines (steps_in script.now) answers.now []) text.new result }
{
    let mut end = at;
    let (steps, _) = script.as_chunks::<4>();
    for (step, answer) in steps.iter().zip(answers) {
        let actor = records::word(step[0], step[1]);
        let partner = records::word(step[2], step[3]);
        end = put_step(text, end, actor, partner, *answer);
    }
    end
}

// Puts what stands after the last line's word: ins, outs, opens done, records not gone.
fn put_counts(text: &mut [u8], at: usize, s: Screen) -> usize
    requires { at + 24 ≤ length text.old }
    ensures { Put text.old at (count_fields s) text.new result }
{
    let c = s.counts;
    let outs = text_put::put_field(text, at, c.ins, b' ');
    let opens = text_put::put_field(text, outs, c.outs, b' ');
    let left = text_put::put_field(text, opens, c.opens, b' ');
    text_put::put_field(text, left, s.records, b'\n')
}

// Puts line one: verdict, its label (0 if sealed), bits set.
fn put_verdict(text: &mut [u8], v: Verdict, ones: u16) -> usize
    requires { 20 ≤ length text.old }
    ensures { Put text.old 0 (verdict_word v ++ field (label_of v) (last_field ones [])) text.new result }
{
    match v {
        Verdict::Exposed(k) => text_put::put_line(text, b"exposed ", k as u16, ones),
        Verdict::Hinted(k) => text_put::put_line(text, b"hinted ", k as u16, ones),
        Verdict::Sealed => text_put::put_line(text, b"sealed ", 0, ones),
    }
}

// Puts the one line of a refusal.
pub fn put_refused(text: &mut [u8], r: Refusal) -> usize
    requires { 20 ≤ length text.old }
    ensures { Put text.old 0 (listing (refusal r) [] []) text.new result }
{
    text_put::put_line(text, b"refused ", r.cause.number() as u16, r.record)
}

// Puts line one, a line for each step, and the last line.
pub fn put_screen(text: &mut [u8], s: Screen, script: &[u8], answers: &[u8]) -> usize
    requires { 48 + length (step_lines (steps_in script.now) answers.now []) ≤ length text.old }
    ensures { Put text.old 0 (listing (done s) (steps_in script.now) answers.now) text.new result }
{
    let v = s.verdict;
    let first = put_verdict(text, v, s.ones);
    let last = put_steps(text, first, script, answers);
    let end = text_put::put(text, last, b"end ");
    put_counts(text, end, s)
}
