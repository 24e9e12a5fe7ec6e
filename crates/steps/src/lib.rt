// Steps of the ambient calculus on a valid itinerary, in place. (It is a clause that it is valid, and no `Itinerary`: that would
// lend what is written.)
#![tactic(auto)]

ghost use Rattle.std.specs.Prelude.{◌≡◌, ◌%◌, ◌*◌, ◌≤◌, length};
ghost use Rattle.model.specs.Analysis.{permit_all};
ghost use Rattle.model.specs.Numbers.{outcome_as};
ghost use Rattle.model.specs.Records.{count, decode, encode, records};
ghost use Rattle.model.specs.Refusals.{pass};
ghost use Rattle.model.specs.Steps.{outcome, ready, step_bytes};
ghost use Rattle.model.specs.Validity.{validity};
ghost use Rattle.records.specs.Written.{with_record};
ghost use Rattle.steps.specs.Moves.{Places, admitted, applied, fit_by, move_by, opened, other, parent_after, past, remade, stands_by};
ghost use Rattle.steps.specs.Passes.{NoChildTo, ShortOf, UntouchedTo, passed_to};

use model::{Capability, Cause, Rec};

// What a step changes beside its actor: it gives home another parent, or opens an ambient, which goes.
#[derive(Clone, Copy)]
enum Change {
    To(u16),
    Opens(u16),
}

// A step that is decided. The actor goes, and its children go to home, its parent, as do those of what is opened.
#[derive(Clone, Copy)]
struct Move {
    pub actor: u16,
    pub home: u16,
    pub change: Change,
}

// An actor that 10 and 11 let through: its capability, its record and its parent's.
#[derive(Clone, Copy)]
pub struct Acting {
    pub capability: Capability,
    pub actor: Rec,
    pub above: Rec,
}

// Whether the actor's parent is an ambient where it must be, and all above the actor are. (A call of its own: what
// 10 and 11 decide is else too much to be part of what asks it.)
#[inline(never)]
fn ready(it: &[u8], k: Capability, parent: u16) -> bool
    requires { length it.now % 8 ≡ 0 }
    ensures { result ≡ ready k (records it.now) parent }
{
    let active = climbing::ambients(it, parent, it.len() / 8 + 1);
    match k {
        Capability::Open => active,
        _ => records::record_at(it, parent).is_ambient() & active,
    }
}

// What 10 and 11 let through of an actor. (A part of what asks it, for each actor of a list of moves.)
#[inline(always)]
pub fn admit(it: &[u8], actor: u16) -> Result<Acting, Cause>
    requires { length it.now % 8 ≡ 0 }
    ensures { result ≡ admitted (records it.now) actor }
{
    let c = records::record_at(it, actor);
    let Some(k) = c.capability() else {
        return Err(Cause::Actor);
    };
    if !ready(it, k, c.parent) {
        return Err(Cause::Active);
    }
    Ok(Acting {
        capability: k,
        actor: c,
        above: records::record_at(it, c.parent),
    })
}

// Whether the partner stands where it must: p is its record.
#[tactic(auto, unfolding(crate::specs::Moves::stands_by))]
fn stands(x: Acting, p: Rec, partner: u16) -> bool
    ensures { result ≡ stands_by x.capability x p partner }
{
    match x.capability {
        Capability::In => (partner != x.actor.parent) & (p.parent == x.above.parent),
        Capability::Out => partner == x.above.parent,
        Capability::Open => p.parent == x.actor.parent,
    }
}

// Whether the partner is an ambient with the actor's name that stands where it must.
#[tactic(auto, unfolding(crate::specs::Moves::fit_by))]
pub fn fits(x: Acting, p: Rec, partner: u16) -> bool
    ensures { result ≡ fit_by x p partner }
{
    (p.is_ambient() & (p.name == x.actor.name)) & stands(x, p, partner)
}

// Which of n records may fit a ready actor, for whoever looks for its partners: those behind the first number, up to the last. For an
// out it is at most one, its parent's parent.
pub fn places(x: Acting, n: u16) -> (u16, u16)
    ensures { Places x n result.0 result.1 }
{
    match x.capability {
        Capability::Out => {
            let last = x.above.parent.min(n);
            (last.saturating_sub(1), last)
        }
        _ => (0, n),
    }
}

// Whether a step is done or refused, 10, 11 and 12 in this order.
fn decide(it: &[u8], actor: u16, partner: u16) -> Result<Capability, Cause>
    requires { length it.now % 8 ≡ 0 }
    ensures { outcome_as result ≡ outcome permit_all (records it.now) actor partner }
{
    let x = admit(it, actor)?;
    let p = records::record_at(it, partner);
    if !fits(x, p, partner) {
        return Err(Cause::Partner);
    }
    Ok(x.capability)
}

// What a step that is done does: home is the actor's parent, above the partner's.
#[tactic(auto, unfolding(crate::specs::Moves::move_by))]
fn move_of(k: Capability, actor: u16, partner: u16, home: u16, above: u16) -> Move
    ensures { result ≡ move_by k actor partner home above }
{
    let change = match k {
        Capability::In => Change::To(partner),
        Capability::Out => Change::To(above),
        Capability::Open => Change::Opens(partner),
    };
    Move {
        actor,
        home,
        change,
    }
}

// The record beside the actor that a change is about: home, which gets another parent, or what is opened.
#[tactic(auto, unfolding(crate::specs::Moves::other))]
fn other(change: Change, home: u16) -> u16
    ensures { result ≡ other change home }
{
    match change {
        Change::To(_) => home,
        Change::Opens(opened) => opened,
    }
}

// What goes beside the actor: what is opened, and the actor again where nothing is.
#[tactic(auto, unfolding(crate::specs::Moves::opened))]
fn opened(change: Change, actor: u16) -> u16
    ensures { result ≡ opened change actor }
{
    match change {
        Change::To(_) => actor,
        Change::Opens(opened) => opened,
    }
}

// The parent p, where the children of record x go to q.
#[tactic(auto, unfolding(crate::specs::Moves::past))]
fn past(x: u16, q: u16, p: u16) -> u16
    ensures { result ≡ past x q p }
{
    if p == x { q } else { p }
}

// The parent that record i has after the move, if it stands; before it has p.
#[tactic(auto, unfolding(crate::specs::Moves::parent_after, crate::specs::Moves::parent_changed))]
fn parent_after(m: Move, i: u16, p: u16) -> Option<u16>
    ensures { result ≡ parent_after m i p }
{
    if i == m.actor {
        return None;
    }
    match m.change {
        Change::To(dest) => Some(past(m.actor, m.home, if i == m.home { dest } else { p })),
        Change::Opens(opened) if i == opened => None,
        Change::Opens(opened) => Some(past(m.actor, m.home, past(opened, m.home, p))),
    }
}

// Record i of the bytes as after the move: a child or the mover gets another parent, what goes is eight zeros, and nothing else is
// written.
fn remake(it: &mut [u8], m: Move, i: u16)
    requires some { 1 ≤ i }
    requires inside { 8 * i ≤ length it.old }
    requires whole { with_record it.old i (decode it.old i) ≡ it.old }
    ensures { it.new ≡ with_record it.old i (remade m i (decode it.old i)) }
{
    let p = records::parent_of(it, i);
    match parent_after(m, i, p) {
        Some(q) => records::put_parent(it, i, q),
        None => records::put_record(it, i, records::gone()),
    }
}

// A number from i to k, so that none of the numbers behind i up to it is n. (How far it goes is not promised, and a matter of speed;
// so with the next two.)
fn short_of(n: u16, i: u16, k: u16) -> u16
    requires { i ≤ k }
    ensures { ShortOf n i k result }
{
    if (i < n) & (n <= k) { n - 1 } else { k }
}

// A number from i to k, so that none of the records behind i up to it has x or y as its parent.
fn no_child_to(it: &[u8], x: u16, y: u16, i: u16, k: u16) -> u16
    requires ordered { i ≤ k }
    requires inside { 8 * k ≤ length it.now }
    ensures { NoChildTo x y i k it.now result }
{
    for j in i..k {
        let p = records::parent_of(it, j + 1);
        if p == x || p == y {
            return j;
        }
    }
    k
}

// A number from i to k, so that none of the records behind i up to it has a number or a parent of the move's: it changes none of them.
fn untouched_to(it: &[u8], m: Move, i: u16, k: u16) -> u16
    requires ordered { i ≤ k }
    requires inside { 8 * k ≤ length it.now }
    ensures { UntouchedTo m i k it.now result }
{
    let named = short_of(m.actor, i, short_of(other(m.change, m.home), i, k));
    no_child_to(it, m.actor, opened(m.change, m.actor), i, named)
}

// The pass over the first k records, in the lent bytes. (No `for`: it goes on from record to record that is changed.)
fn pass_to(it: &mut [u8], m: Move, k: u16)
    requires valid { validity it.old ≡ pass }
    requires inside { k ≤ count it.old }
    ensures { it.new ≡ passed_to (remade m) k it.old }
{
    let mut i = 0;
    while i < k {
        i = untouched_to(it, m, i, k);
        if i < k {
            remake(it, m, i + 1);
            i += 1;
        }
    }
}

// The move, by the pass over all records.
fn apply(it: &mut [u8], m: Move)
    requires { validity it.old ≡ pass }
    ensures { it.new ≡ encode (applied m (records it.old)) }
{
    pass_to(it, m, (it.len() / 8) as u16);
}

// The step on an itinerary that is known to be valid.
pub fn act(it: &mut [u8], actor: u16, partner: u16) -> Result<Capability, Cause>
    requires { validity it.old ≡ pass }
    ensures outcome { outcome_as result ≡ outcome permit_all (records it.old) actor partner }
    ensures bytes { it.new ≡ step_bytes permit_all it.old actor partner }
{
    let k = decide(it, actor, partner)?;
    let c = records::record_at(it, actor);
    let p = records::record_at(it, partner);
    apply(it, move_of(k, actor, partner, c.parent, p.parent));
    Ok(k)
}
