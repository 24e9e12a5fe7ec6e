// What the hub can do next: the list of the pairs of actor and partner whose step would be done, and the tally of what all pairs
// would be answered. Counting and writing each decide once for an actor what 10 and 11 say of it, and look at partners only for
// one that they let through.
#![tactic(auto)]

ghost use Rattle.std.specs.Prelude.{◌≡◌, ◌+◌, ◌≤◌, IfOk, Ok, leb, length};
ghost use Rattle.model.specs.Analysis.{permit_all};
ghost use Rattle.model.specs.Finite.{over, tally};
ghost use Rattle.model.specs.MoveList.{list_bytes, moves, moves_of, tally_of};
ghost use Rattle.model.specs.Numbers.{check_as};
ghost use Rattle.model.specs.Records.{count, decode, records};
ghost use Rattle.model.specs.Refusals.{need};
ghost use Rattle.move_list.specs.Pairs.{Roomy, added, all_refused, pair, actor_tally};
ghost use Rattle.steps.specs.Moves.{admitted, fit_by};
ghost use Rattle.text_put.specs.Puts.{Put};

use model::{Cause, Refusal, Tally};
use records::Itinerary;
use steps::Acting;

// No pair.
const NONE: Tally = Tally {
    done: 0,
    no_capability: 0,
    inactive: 0,
    unfit: 0,
};

// How many partners fit a ready actor.
fn fitting(it: &Itinerary, x: Acting) -> u32
    ensures { result ≡ tally (λ b. fit_by x (decode it.now b) b) (count it.now) }
{
    let mut fits = 0;
    let (first, last) = steps::places(x, it.count());
    for b in first..last {
        fits += steps::fits(x, records::record_in(it.bytes, b + 1), b + 1) as u32;
    }
    fits
}

// The tally of the n pairs of an actor that 10 or 11 refuses.
#[tactic(auto, unfolding(crate::specs::Pairs::all_refused))]
fn refused(cause: Cause, n: u32) -> Tally
    ensures { result ≡ all_refused cause n }
{
    match cause {
        Cause::Actor => Tally {
            no_capability: n,
            ..NONE
        },
        _ => Tally {
            inactive: n,
            ..NONE
        },
    }
}

// The tally of one actor's pairs.
fn actor_tally(it: &Itinerary, actor: u16) -> Tally
    ensures { result ≡ actor_tally (records it.now) actor }
{
    let n = it.count() as u32;
    match steps::admit(it.bytes, actor) {
        Ok(x) => {
            let done = fitting(it, x);
            Tally {
                done,
                unfit: n - done,
                ..NONE
            }
        }
        Err(cause) => refused(cause, n),
    }
}

// Two tallies as one.
fn added(t: Tally, r: Tally) -> Tally
    requires { Roomy t r }
    ensures { result ≡ added t r }
{
    Tally {
        done: t.done + r.done,
        no_capability: t.no_capability + r.no_capability,
        inactive: t.inactive + r.inactive,
        unfit: t.unfit + r.unfit,
    }
}

// The tally of all pairs. (It reads the count off the bytes, and so knows that the records are few enough to be counted.)
pub fn tally(it: &Itinerary) -> Tally
    ensures { result ≡ tally_of permit_all (records it.now) }
{
    let mut t = NONE;
    for i in 0..(it.bytes.len() / 8) as u16 {
        t = added(t, actor_tally(it, i + 1));
    }
    t
}

// Refusal 15; the tally, by which the list's length is known.
#[tactic(auto, unfolding(model::specs::Numbers::check_as, model::specs::Numbers::number_of))]
pub fn list_gate(it: &Itinerary, list: &[u8]) -> Result<Tally, Refusal>
    ensures checks { check_as result ≡ need (leb (length (list_bytes (moves permit_all (records it.now)))) (length list.now)) 15 0 }
    ensures told { IfOk result (λ t. t ≡ tally_of permit_all (records it.now)) }
{
    let tally = tally(it);
    gates::need(4 * tally.done as usize <= list.len(), Cause::List, 0)?;
    Ok(tally)
}

// Puts a pair, and answers the place behind it.
fn put_pair(list: &mut [u8], at: usize, actor: u16, partner: u16) -> usize
    requires { at + 4 ≤ length list.old }
    ensures { Put list.old at (list_bytes (pair actor partner)) list.new result }
{
    let [a, b] = actor.to_le_bytes();
    let [c, d] = partner.to_le_bytes();
    list[at] = a;
    list[at + 1] = b;
    list[at + 2] = c;
    list[at + 3] = d;
    at + 4
}

// Puts the moves of a ready actor.
fn put_moves_of(it: &Itinerary, x: Acting, actor: u16, list: &mut [u8], at: usize) -> usize
    requires ready { admitted (records it.now) actor ≡ Ok x }
    requires room { at + length (list_bytes (moves_of permit_all (records it.now) actor)) ≤ length list.old }
    ensures { Put list.old at (list_bytes (moves_of permit_all (records it.now) actor)) list.new result }
{
    let mut end = at;
    let (first, last) = steps::places(x, it.count());
    for b in first..last {
        if steps::fits(x, records::record_in(it.bytes, b + 1), b + 1) {
            end = put_pair(list, end, actor, b + 1);
        }
    }
    end
}

// Puts the moves of an actor, ready or not.
fn put_actor(it: &Itinerary, actor: u16, list: &mut [u8], at: usize) -> usize
    requires { at + length (list_bytes (moves_of permit_all (records it.now) actor)) ≤ length list.old }
    ensures { Put list.old at (list_bytes (moves_of permit_all (records it.now) actor)) list.new result }
{
    let Ok(x) = steps::admit(it.bytes, actor) else {
        return at;
    };
    put_moves_of(it, x, actor, list, at)
}

// Writes the list at the start of what is lent for it.
pub fn write(it: &Itinerary, list: &mut [u8])
    requires { length (list_bytes (moves permit_all (records it.now))) ≤ length list.old }
    ensures { list.new ≡ over (list_bytes (moves permit_all (records it.now))) list.old }
{
    let mut end = 0;
    for i in 0..it.count() {
        end = put_actor(it, i + 1, list, end);
    }
}
