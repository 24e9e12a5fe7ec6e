// The buffers of a replay, each with its shadow, and the answers and bits of stored cases. (The format of a file of cases is in
// simulator/README.md.)
#![tactic(auto, using(model::proofs::Laws::Bit::one_shl), unfolding(crate::specs::Storing::IsEmpty, crate::specs::Storing::IsEmptyMemory, crate::specs::Storing::IsFull, crate::specs::Storing::StaysAsItIs, crate::specs::Storing::copied, crate::specs::Storing::buffer_right, crate::specs::Storing::as_wanted, crate::specs::Storing::buffer_of, crate::specs::Storing::bytes_at, crate::specs::Storing::decoded, crate::specs::Storing::value, crate::specs::Storing::turned, crate::specs::Storing::raised, replay_compare::specs::Comparing::agreeing))]

ghost use Rattle.std.specs.Prelude.{◌≡◌, ◌<◌, ◌≤◌, option_map, take, OnOk};
ghost use Rattle.replay_buffers.specs.Storing.{IsFull, IsEmpty, IsEmptyMemory, StaysAsItIs, as_wanted, buffer_of, buffer_right, bytes_at, copied, decoded, raised, turned, value};

use replay_compare::Reply;
use std::alloc::{AllocError, Global};

// A buffer: its content, and its shadow, which is what the content has to be after the next call. Each may have at most `size`
// bytes. (They are on the heap: a list of moves may have a megabyte.)
#[derive(Drop)]
pub struct Buffer {
    content: Vec<u8>,
    shadow: Vec<u8>,
    size: usize,
}

impl Buffer {
    // A buffer with no bytes in it yet.
    pub fn new(alloc: Global, size: usize) -> Buffer
        ensures { IsEmpty size result }
    {
        Buffer {
            content: Vec::new(alloc),
            shadow: Vec::new(alloc),
            size,
        }
    }

    // How many it may have.
    pub fn size(&self) -> usize
        ensures { result ≡ self.now.size }
    {
        self.size
    }

    // Gives content and shadow n bytes, each the one given.
    pub fn set_all(&mut self, n: usize, byte: u8) -> Result<(), AllocError>
        requires { n ≤ self.old.size }
        ensures { OnOk result (IsFull n byte self.old self.new) }
    {
        self.content.clear();
        self.content.resize(n, byte)?;
        self.shadow.clear();
        self.shadow.resize(n, byte)?;
        Ok(())
    }

    // The bytes that it has.
    pub fn content(&self) -> &[u8]
        ensures { result.now ≡ self.now.content.items }
    {
        &self.content
    }

    // The same, lent to a call that writes them. (A method for each of content and shadow: with the one of them named by a
    // parameter, the contract would be by cases of it.)
    pub fn content_mut(&mut self) -> &mut [u8]
        ensures { result.now ≡ self.old.content.items }
    {
        self.content.as_mut_slice()
    }

    // What they have to be after the next call.
    pub fn shadow_mut(&mut self) -> &mut [u8]
        ensures { result.now ≡ self.old.shadow.items }
    {
        self.shadow.as_mut_slice()
    }

    // Has its content stay as it is.
    pub fn want_content(&mut self)
        ensures { StaysAsItIs self.old self.new }
    {
        copy(self.content.as_slice(), self.shadow.as_mut_slice());
    }

    // Whether it has the bytes that it has to have.
    pub fn is_as_wanted(&self) -> bool
        ensures { result ≡ buffer_right self.now }
    {
        self.content.as_slice() == self.shadow.as_slice()
    }
}

// The first n bytes of a buffer, or all of it where it has fewer.
fn first(s: &[u8], n: usize) -> &[u8]
    ensures { result.now ≡ take n s.now }
{
    &s[..n.min(s.len())]
}

// The same of a buffer that is lent to change: the language has no one function for both.
fn first_mut(s: &mut [u8], n: usize) -> &mut [u8]
    ensures { result.now ≡ take n s.old }
{
    let n = n.min(s.len());
    &mut s[..n]
}

// Copies as many bytes as both have.
pub fn copy(from: &[u8], to: &mut [u8])
    ensures { to.new ≡ copied from.now to.old }
{
    let n = from.len().min(to.len());
    to[..n].copy_from_slice(&from[..n]);
}

// The n bytes from a place on, or as many as there are.
pub fn place(s: &[u8], at: usize, n: usize) -> &[u8]
    ensures { result.now ≡ bytes_at at n s.now }
{
    first(&s[at.min(s.len())..], n)
}

// The same of a buffer that is lent to change.
pub fn place_mut(s: &mut [u8], at: usize, n: usize) -> &mut [u8]
    ensures { result.now ≡ bytes_at at n s.old }
{
    let at = at.min(s.len());
    first_mut(&mut s[at..], n)
}

// The buffers of the calls.
#[derive(Drop)]
pub struct Memory {
    pub itinerary: Buffer,
    pub policy: Buffer,
    pub table: Buffer,
    pub script: Buffer,
    pub answers: Buffer,
    pub sheet: Buffer,
    pub list: Buffer,
    pub second: Buffer,
    pub third: Buffer,
    pub fourth: Buffer,
    pub joined: Buffer,
}

impl Memory {
    // All buffers, with no bytes in them yet, each with the most that a case may set it to.
    pub fn new(alloc: Global) -> Memory
        ensures { IsEmptyMemory result }
    {
        Memory {
            itinerary: Buffer::new(alloc, 8264),
            policy: Buffer::new(alloc, 80),
            table: Buffer::new(alloc, 1560),
            script: Buffer::new(alloc, 4104),
            answers: Buffer::new(alloc, 1032),
            sheet: Buffer::new(alloc, 8264),
            list: Buffer::new(alloc, 1048600),
            second: Buffer::new(alloc, 8264),
            third: Buffer::new(alloc, 8264),
            fourth: Buffer::new(alloc, 8264),
            joined: Buffer::new(alloc, 32768),
        }
    }

    // The buffer with number k, where there is one.
    pub fn buffer(&mut self, k: u8) -> Option<&mut Buffer>
        ensures { option_map (λ b. b.now) result ≡ buffer_of k self.old }
    {
        match k {
            1 => Some(&mut self.itinerary),
            2 => Some(&mut self.policy),
            3 => Some(&mut self.table),
            4 => Some(&mut self.script),
            5 => Some(&mut self.answers),
            6 => Some(&mut self.sheet),
            7 => Some(&mut self.list),
            8 => Some(&mut self.second),
            9 => Some(&mut self.third),
            10 => Some(&mut self.fourth),
            11 => Some(&mut self.joined),
            _ => None,
        }
    }

    // Whether a call gave the answer wanted and left the bytes wanted. (No call can write policy, script or a member behind the
    // first: what a file wants of these isn't looked at.)
    pub fn as_wanted(&self, got: Reply, want: Reply) -> bool
        ensures { result ≡ as_wanted got want self.now }
    {
        got == want
            && self.itinerary.is_as_wanted()
            && self.table.is_as_wanted()
            && self.answers.is_as_wanted()
            && self.sheet.is_as_wanted()
            && self.list.is_as_wanted()
            && self.joined.is_as_wanted()
    }
}

// An answer as a file has it: number, record, values.
pub fn reply_of(b: &[u8; 27]) -> Reply
    ensures { result ≡ decoded b.now }
{
    Reply {
        number: b[0],
        record: u16::from_le_bytes([b[1], b[2]]),
        values: [
            value(b, 0),
            value(b, 1),
            value(b, 2),
            value(b, 3),
            value(b, 4),
            value(b, 5),
        ],
    }
}

// Value k of it.
fn value(b: &[u8; 27], k: usize) -> u32
    requires { k < 6 }
    ensures { result ≡ value b.now k }
{
    let at = 3 + 4 * k;
    u32::from_le_bytes([b[at], b[at + 1], b[at + 2], b[at + 3]])
}

// Turns bit k, where there is one. (Not one function with the next: it would promise whatever an operation does that is passed
// in, and the two definitions be proved where it is called.)
pub fn turn(buffer: &mut [u8], k: usize)
    ensures { buffer.new ≡ turned k buffer.old }
{
    if k / 8 < buffer.len() {
        buffer[k / 8] ^= 1 << (k % 8);
    }
}

// Sets bit k, where there is one.
pub fn raise(buffer: &mut [u8], k: usize)
    ensures { buffer.new ≡ raised k buffer.old }
{
    if k / 8 < buffer.len() {
        buffer[k / 8] |= 1 << (k % 8);
    }
}
