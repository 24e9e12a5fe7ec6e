// Stored cases: reading a file of them up to its next call, which the program makes. (The format of a file is in
// simulator/README.md.)
#![tactic(auto, unfolding(crate::specs::Codes::code_of, crate::specs::Codes::Reads))]

ghost use Rattle.replay_cases.specs.Codes.{Reads};

use replay_buffers::{Buffer, Memory};
use replay_compare::{Reply, Tally};
use std::fs::File;
use std::io::Read;
use std::rt::Files;

// What a file has is no case, or it ends before its end command; or there is no memory for what it sets.
#[derive(Clone, Copy)]
pub struct Fault;

// The calls that a case may make.
#[derive(Clone, Copy)]
pub enum Call {
    Validate,
    Climb,
    Sheet,
    Step,
    Run,
    Check,
    Make,
    Verdict,
    Row,
    Screen,
    Exposed,
    Moves,
    Join,
    Copy,
}

impl TryFrom<u8> for Call {
    type Error = Fault;

    ghost try_from_gives = { Reads };

    fn try_from(code: u8) -> Result<Call, Fault> {
        Ok(match code {
            16 => Call::Validate,
            17 => Call::Climb,
            18 => Call::Sheet,
            19 => Call::Step,
            20 => Call::Run,
            21 => Call::Check,
            22 => Call::Make,
            23 => Call::Verdict,
            24 => Call::Row,
            25 => Call::Screen,
            26 => Call::Exposed,
            27 => Call::Moves,
            28 => Call::Join,
            29 => Call::Copy,
            _ => return Err(Fault),
        })
    }
}

// A call with its arguments and what is wanted of it. None is a call that there isn't.
#[derive(Clone, Copy)]
pub struct Case {
    pub call: Option<Call>,
    pub x: u16,
    pub y: u16,
    pub want: Reply,
}

// Fills the buffer with the file's next bytes.
fn fill(file: &mut impl Read, buffer: &mut [u8]) -> Result<(), Fault> {
    let len = files::read_full(file, buffer).len;
    (len == buffer.len()).then_some(()).ok_or(Fault)
}

// The file's next N bytes.
fn next<const N: usize>(file: &mut impl Read) -> Result<[u8; N], Fault> {
    let mut bytes = [0; N];
    fill(file, &mut bytes)?;
    Ok(bytes)
}

// The file's next number.
fn next_number(file: &mut impl Read) -> Result<u32, Fault> {
    Ok(u32::from_le_bytes(next::<4>(file)?))
}

// What a command does to a buffer.
#[derive(Clone, Copy)]
enum Change {
    Set,
    SetZeros,
    TurnBits,
    WantBytes,
    WantZeros,
    WantBits,
    WantPairs,
    Fill,
}

// What a file is made of: a change of a buffer by a count (or from a place on), or a call with how many values it gives and its
// arguments.
#[derive(Clone, Copy)]
enum Command {
    End,
    Prepare(Change, u8, u32),
    Make(Option<Call>, u8, u16, u16),
}

// The six bytes of the file's next command.
fn next_command(file: &mut impl Read) -> Result<Command, Fault> {
    let [code, small, a, b, c, d] = next::<6>(file)?;
    let n = u32::from_le_bytes([a, b, c, d]);
    Ok(match code {
        0 => Command::End,
        3 => Command::Prepare(Change::Set, small, n),
        4 => Command::Prepare(Change::SetZeros, small, n),
        5 => Command::Prepare(Change::TurnBits, small, n),
        6 => Command::Prepare(Change::WantBytes, small, n),
        7 => Command::Prepare(Change::WantZeros, small, n),
        8 => Command::Prepare(Change::WantBits, small, n),
        9 => Command::Prepare(Change::WantPairs, small, n),
        10 => Command::Prepare(Change::Fill, small, n),
        16.. => Command::Make(
            Call::try_from(code).ok(),
            small,
            u16::from_le_bytes([a, b]),
            u16::from_le_bytes([c, d]),
        ),
        _ => return Err(Fault),
    })
}

// Gives a buffer and its shadow n bytes, each the one given.
fn set_all(buffer: &mut Buffer, n: u32, byte: u8) -> Result<(), Fault> {
    let n = n as usize;
    if buffer.size() < n {
        return Err(Fault);
    }
    buffer.set_all(n, byte).map_err(|_| Fault)
}

// The number of a bit that the buffer has, which the file gives.
fn next_bit(file: &mut impl Read, buffer: &Buffer) -> Result<usize, Fault> {
    let k = next_number(file)? as usize;
    (k / 8 < buffer.content().len()).then_some(k).ok_or(Fault)
}

// Changes bits of a buffer, n of them, which the file lists.
fn bits<F: Fn(&mut Buffer, usize)>(
    file: &mut impl Read,
    buffer: &mut Buffer,
    n: u32,
    change: F,
) -> Result<(), Fault>
    requires { F.IsAlwaysCallable change }
{
    for _ in 0..n {
        let k = next_bit(file, buffer)?;
        change(buffer, k);
    }
    Ok(())
}

// Overwrites n bytes of a shadow, from the offset on that the file gives first.
fn want_bytes(file: &mut impl Read, buffer: &mut Buffer, n: u32) -> Result<(), Fault> {
    let at = next_number(file)? as usize;
    let part = replay_buffers::place_mut(buffer.shadow_mut(), at, n as usize);
    if part.len() != n as usize {
        return Err(Fault);
    }
    fill(file, part)
}

// Numbers that follow one another: the first, and how many.
#[derive(Clone, Copy)]
struct Numbers {
    first: u16,
    count: u16,
}

impl Numbers {
    // Number k of them.
    fn number(self, k: usize) -> Result<u16, Fault> {
        let k = u16::try_from(k).map_err(|_| Fault)?;
        self.first.checked_add(k).ok_or(Fault)
    }
}

// The file's next numbers that follow one another.
fn next_numbers(file: &mut impl Read) -> Result<Numbers, Fault> {
    let first = next_number(file)?;
    let count = next_number(file)?;
    Ok(Numbers {
        first: u16::try_from(first).map_err(|_| Fault)?,
        count: u16::try_from(count).map_err(|_| Fault)?,
    })
}

// Overwrites a shadow from a place on with pairs, as many as the file says: each actor in turn with the same partners.
fn want_pairs(file: &mut impl Read, buffer: &mut Buffer, at: u32) -> Result<(), Fault> {
    let actors = next_numbers(file)?;
    let partners = next_numbers(file)?;
    let row = partners.count as usize;
    let len = 4 * (actors.count as usize) * row;
    let part = replay_buffers::place_mut(buffer.shadow_mut(), at as usize, len);
    if part.len() != len || row == 0 {
        return Err(Fault);
    }
    for (k, pair) in part.chunks_exact_mut(4).enumerate() {
        let [a, b] = actors.number(k / row)?.to_le_bytes();
        let [c, d] = partners.number(k % row)?.to_le_bytes();
        replay_buffers::copy(&[a, b, c, d], pair);
    }
    Ok(())
}

// Changes a buffer.
fn prepare(file: &mut impl Read, change: Change, buffer: &mut Buffer, n: u32) -> Result<(), Fault> {
    match change {
        Change::Set => {
            set_all(buffer, n, 0)?;
            fill(file, buffer.content_mut())?;
            buffer.want_content();
            Ok(())
        }
        Change::SetZeros => set_all(buffer, n, 0),
        Change::Fill => {
            let [byte] = next::<1>(file)?;
            set_all(buffer, n, byte)
        }
        Change::TurnBits => bits(file, buffer, n, |b, k| {
            replay_buffers::turn(b.content_mut(), k);
            replay_buffers::turn(b.shadow_mut(), k);
        }),
        Change::WantBytes => want_bytes(file, buffer, n),
        Change::WantZeros => {
            buffer.shadow_mut().fill(0);
            Ok(())
        }
        Change::WantBits => bits(file, buffer, n, |b, k| {
            replay_buffers::raise(b.shadow_mut(), k);
        }),
        Change::WantPairs => want_pairs(file, buffer, n),
    }
}

// What the file wants of a call, with as many values as its head says; the others are 0.
fn wanted(file: &mut impl Read, values: u8) -> Result<Reply, Fault> {
    let mut bytes = [0; 27];
    let n = 3 + 4 * (values as usize);
    if 27 < n {
        return Err(Fault);
    }
    fill(file, &mut bytes[..n])?;
    Ok(replay_buffers::reply_of(&bytes))
}

// Nothing stands behind the end of a file.
fn at_end(file: &mut impl Read) -> Result<(), Fault> {
    if next::<1>(file).is_ok() {
        return Err(Fault);
    }
    Ok(())
}

// The file's next call, with the buffers set for it, or none at its end; after at most a million other commands.
pub fn next_case(file: &mut impl Read, memory: &mut Memory) -> Result<Option<Case>, Fault> {
    for _ in 0..1000000 {
        match next_command(file)? {
            Command::End => {
                at_end(file)?;
                return Ok(None);
            }
            // Policy, script and the members behind the first have no shadow to overwrite.
            Command::Prepare(Change::WantBytes, 2 | 4 | 8..=10, 1..) => return Err(Fault),
            Command::Prepare(Change::WantPairs, 2 | 4 | 8..=10, _) => return Err(Fault),
            Command::Prepare(change, k, n) => {
                let buffer = memory.buffer(k).ok_or(Fault)?;
                prepare(file, change, buffer, n)?;
            }
            Command::Make(call, values, x, y) => {
                let want = wanted(file, values)?;
                return Ok(Some(Case { call, x, y, want }));
            }
        }
    }
    Err(Fault)
}

// Opens a file of cases; a fault where it can't be opened or begins otherwise.
pub fn open<R: Files>(rt: &R, path: &[u8]) -> Result<R::File, Fault> {
    let path = str::from_utf8(path).map_err(|_| Fault)?;
    let mut file = File::open(rt, path).map_err(|_| Fault)?;
    let begun = next::<5>(&mut file)? == *b"case\x03";
    begun.then_some(file).ok_or(Fault)
}

// Writes a line with a file's name, the calls made and those that differ, and whether what followed in it was no case.
pub fn finish(out: &impl Print, name: &[u8], tally: Tally, ended: Result<(), Fault>) {
    let (calls, differ) = (tally.calls, tally.differ);
    let behind = match ended {
        Ok(()) => "",
        Err(Fault) => ", and then no case",
    };
    let _ = out.write_all(name);
    let _ = println!(out; ": {calls} calls, {differ} differ{behind}");
}
