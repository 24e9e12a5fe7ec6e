// Refusals 2 to 5: what makes each record right by itself and by its parent's place.
#![tactic(auto)]

ghost use Rattle.std.specs.Prelude.{◌≡◌, ◌*◌, ◌≤◌, IfOk, length};
ghost use Rattle.model.specs.Numbers.{answer_as, check_as};
ghost use Rattle.model.specs.Records.{decode};
ghost use Rattle.model.specs.Refusals.{answer, each_of};
ghost use Rattle.model.specs.Validity.{client_right, gone_right, label_by, label_in, label_right, name_by, name_right, parent_right, record_check, spare_right};
ghost use Rattle.record_checks.specs.Reading.{form_right, in_order};

use model::{Cause, Rec, Refusal};

// Whether the spare byte of a whole record is zero.
fn spare_right(it: &[u8], i: u16) -> bool
    requires some { 1 ≤ i }
    requires whole { 8 * i ≤ length it.now }
    ensures { result ≡ spare_right it.now i }
{
    let at = 8 * ((i as usize) - 1);
    it[at + 3] == 0
}

// Whether the client's number is one.
#[tactic(auto, unfolding(model::specs::Validity::client_right))]
fn client_right(r: Rec) -> bool
    ensures { result ≡ client_right r }
{
    r.client <= 999
}

// Whether a gone record is all zero.
#[tactic(auto, unfolding(model::specs::Validity::gone_right, model::specs::Validity::blank))]
fn gone_right(r: Rec) -> bool
    ensures { result ≡ gone_right r }
{
    if r.is_gone() {
        return (r.label == 0) & ((r.name == 0) & ((r.parent == 0) & (r.client == 0)));
    }
    true
}

// Whether a label is in the range of ambients, or of capabilities.
#[tactic(auto, unfolding(model::specs::Validity::label_in))]
fn label_in(ambient: bool, label: u16) -> bool
    ensures { result ≡ label_in ambient label }
{
    if ambient {
        return (1 <= label) & (label <= 63);
    }
    (64 <= label) & (label <= 127)
}

// Whether the label is right, by whether the kind is nested: 0 where it isn't.
#[tactic(auto, unfolding(model::specs::Validity::label_by))]
pub fn label_by(nested: bool, ambient: bool, label: u16) -> bool
    ensures { result ≡ label_by nested ambient label }
{
    if nested {
        return label_in(ambient, label);
    }
    label == 0
}

// Whether the label is right for the kind.
#[tactic(auto, unfolding(model::specs::Validity::label_right))]
fn label_right(r: Rec) -> bool
    ensures { result ≡ label_right r }
{
    label_by(r.is_nested(), r.is_ambient(), r.label as u16)
}

// Whether the name is right, by whether the kind is nested: 0 where it isn't.
#[tactic(auto, unfolding(model::specs::Validity::name_by))]
pub fn name_by(nested: bool, name: u16) -> bool
    ensures { result ≡ name_by nested name }
{
    if nested {
        return name <= 63;
    }
    name == 0
}

// Whether the name is right for the kind.
#[tactic(auto, unfolding(model::specs::Validity::name_right))]
fn name_right(r: Rec) -> bool
    ensures { result ≡ name_right r }
{
    name_by(r.is_nested(), r.name as u16)
}

// Whether p may be a parent.
fn parent_right(it: &[u8], p: u16) -> bool
    ensures { result ≡ parent_right it.now p }
{
    if p == 0 {
        return true;
    }
    ((p as usize) <= it.len() / 8) && (it[8 * ((p as usize) - 1)] != 0)
}

// Whether record i, which is whole, has none of the faults of refusal 2.
#[tactic(auto, unfolding(crate::specs::Reading::form_right, model::specs::Validity::kind_right))]
fn form_right(it: &[u8], i: u16, r: Rec) -> bool
    requires some { 1 ≤ i }
    requires whole { 8 * i ≤ length it.now }
    ensures { result ≡ form_right it.now i r }
{
    (r.kind <= 5) & (spare_right(it, i) & (client_right(r) & gone_right(r)))
}

// Record i, which is whole, or the first refusal of 2 to 5 that it gives.
#[tactic(auto, unfolding(model::specs::Numbers::answer_as, model::specs::Numbers::check_as, model::specs::Numbers::refusal, model::specs::Numbers::number_of, model::specs::Refusals::answer, model::specs::Refusals::and_then, model::specs::Refusals::need, model::specs::Validity::record_check, crate::specs::Reading::form_right))]
fn read_record(it: &[u8], i: u16) -> Result<Rec, Refusal>
    requires some { 1 ≤ i }
    requires whole { 8 * i ≤ length it.now }
    ensures { answer_as result ≡ answer (record_check it.now i) (decode it.now i) }
{
    let r = records::record_in(it, i);
    gates::need(form_right(it, i, r), Cause::Form, i)?;
    gates::need(label_right(r), Cause::Label, i)?;
    gates::need(name_right(r), Cause::Name, i)?;
    gates::need(parent_right(it, r.parent), Cause::Parent, i)?;
    Ok(r)
}

// Refusals 2 to 5 of the first n records, and whether none of them has a parent with a higher number, as in an itinerary that was
// written from the top down.
pub fn read_all(it: &[u8], n: u16) -> Result<bool, Refusal>
    requires { 8 * n ≤ length it.now }
    ensures checks { check_as result ≡ each_of (record_check it.now) 1 n }
    ensures order { IfOk result (λ ordered. ordered ≡ in_order it.now n) }
{
    let mut ordered = true;
    for i in 0..n {
        let read = read_record(it, i + 1);
        let Ok(r) = read else {
            return read.map(|_| ordered);
        };
        ordered = (r.parent <= i) & ordered;
    }
    Ok(ordered)
}
