// Reading a record of an itinerary, and writing one.
#![tactic(auto)]

ghost use Rattle.std.specs.Prelude.{◌≡◌, ◌*◌, ◌<◌, ◌≤◌, length};
ghost use Rattle.model.specs.Records.{byte_of, count, decode, gone, word};
ghost use Rattle.model.specs.Steps.{to};
ghost use Rattle.records.specs.Written.{with_record};

use model::Rec;
use std::marker::Model;

// An itinerary that is known to be valid.
#[derive(Drop)]
pub struct Itinerary<'a> {
    pub bytes: &'a [u8],
}

impl<'a> Model for Itinerary<'a> {
    ghost use Rattle.std.specs.Prelude.{◌≡◌, ℕ, List};
    ghost use Rattle.model.specs.Refusals.{pass};
    ghost use Rattle.model.specs.Validity.{validity};

    ghost Value = { List ℕ };

    ghost view = { λ a. a.bytes.now };

    ghost invariant = { λ a. validity a.bytes.now ≡ pass };
}

impl<'a> Itinerary<'a> {
    // How many records it has.
    pub fn count(&self) -> u16
        ensures { result ≡ count self.now }
    {
        (self.bytes.len() / 8) as u16
    }
}

// How many bytes the longest itinerary has: 1,024 records of 8.
pub const LONGEST: usize = 8192;

// Byte k of record i, 0 where there is none.
pub fn byte_of(it: &[u8], i: u16, k: usize) -> u8
    requires { k < 8 }
    ensures { result ≡ byte_of it.now i k }
{
    if i == 0 {
        return 0;
    }
    let at = 8 * ((i as usize) - 1) + k;
    if at < it.len() { it[at] } else { 0 }
}

// A number of two bytes, the low one first.
pub fn word(low: u8, high: u8) -> u16
    ensures { result ≡ word low high }
{
    u16::from_le_bytes([low, high])
}

// Record i byte by byte, past the last whole record. (The one form for all records would test the length for each byte;
// `record_at` is the most frequent call of all.)
fn edge_at(it: &[u8], i: u16) -> Rec
    ensures { result ≡ decode it.now i }
{
    Rec {
        kind: byte_of(it, i, 0),
        label: byte_of(it, i, 1),
        name: byte_of(it, i, 2),
        parent: word(byte_of(it, i, 4), byte_of(it, i, 5)),
        client: word(byte_of(it, i, 6), byte_of(it, i, 7)),
    }
}

// The parent's number of a whole record. (Here and below it is asked that i is the number of one: a type of such numbers would be
// made anew, at each call, of a number that a loop has.)
pub fn parent_of(it: &[u8], i: u16) -> u16
    requires some { 1 ≤ i }
    requires whole { 8 * i ≤ length it.now }
    ensures { result ≡ (decode it.now i).parent }
{
    let at = 8 * ((i as usize) - 1);
    word(it[at + 4], it[at + 5])
}

// A whole record.
pub fn record_in(it: &[u8], i: u16) -> Rec
    requires some { 1 ≤ i }
    requires whole { 8 * i ≤ length it.now }
    ensures { result ≡ decode it.now i }
{
    let at = 8 * ((i as usize) - 1);
    Rec {
        kind: it[at],
        label: it[at + 1],
        name: it[at + 2],
        parent: parent_of(it, i),
        client: word(it[at + 6], it[at + 7]),
    }
}

// Record i, gone for the environment and over the count. One test of the length serves a whole record.
pub fn record_at(it: &[u8], i: u16) -> Rec
    ensures { result ≡ decode it.now i }
{
    if i == 0 {
        return gone();
    }
    if it.len() / 8 < (i as usize) {
        return edge_at(it, i);
    }
    record_in(it, i)
}

// A record that is gone.
pub fn gone() -> Rec
    ensures { result ≡ gone }
{
    Rec {
        kind: 0,
        label: 0,
        name: 0,
        parent: 0,
        client: 0,
    }
}

// The record with another parent.
pub fn with_parent(r: Rec, q: u16) -> Rec
    ensures { result ≡ to q r }
{
    Rec { parent: q, ..r }
}

// Writes record i.
pub fn put_record(it: &mut [u8], i: u16, r: Rec)
    requires some { 1 ≤ i }
    requires whole { 8 * i ≤ length it.old }
    ensures { it.new ≡ with_record it.old i r }
{
    let at = 8 * ((i as usize) - 1);
    it[at] = r.kind;
    it[at + 1] = r.label;
    it[at + 2] = r.name;
    it[at + 3] = 0;
    let [low, high] = r.parent.to_le_bytes();
    it[at + 4] = low;
    it[at + 5] = high;
    let [low, high] = r.client.to_le_bytes();
    it[at + 6] = low;
    it[at + 7] = high;
}

// Writes another parent into a whole record, its two bytes alone.
pub fn put_parent(it: &mut [u8], i: u16, q: u16)
    requires some { 1 ≤ i }
    requires inside { 8 * i ≤ length it.old }
    requires whole { with_record it.old i (decode it.old i) ≡ it.old }
    ensures { it.new ≡ with_record it.old i (to q (decode it.old i)) }
{
    let at = 8 * ((i as usize) - 1);
    let [first, second] = q.to_le_bytes();
    it[at + 4] = first;
    it[at + 5] = second;
}
