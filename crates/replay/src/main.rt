// Replays the stored cases of the calls, file by file, and writes a line for each.
#![tactic(auto)]

use crate::results::reply;
use replay_buffers::Memory;
use replay_cases::{Call, Case, Fault};
use replay_compare::{Reply, Tally};
use std::alloc::Global;
use std::rt::Files;

mod results;

// The row as offset and length: its bytes are those at the offset that the case gives. None where they are others.
fn row(table: &[u8], label: u16, want: Reply) -> Option<Reply> {
    let (offset, len) = (want.values[0], want.values[1]);
    let there = replay_buffers::place(table, offset as usize, len as usize);
    let row = calls::row(table, u8::try_from(label).unwrap_or(255));
    (there.len() == len as usize && row == there).then_some(Reply::done([offset, len, 0, 0, 0, 0]))
}

// Makes the call of a case; its answer. None is a row that is another part of the table, or a call that there isn't.
fn answer(case: Case, memory: &mut Memory) -> Option<Reply> {
    let Memory {
        itinerary,
        policy,
        table,
        script,
        answers,
        sheet,
        list,
        second,
        third,
        fourth,
        joined,
    } = memory;
    let (x, y) = (case.x, case.y);
    Some(match case.call? {
        Call::Validate => reply(calls::validate(itinerary.content())),
        Call::Climb => reply(calls::climb(itinerary.content(), policy.content(), x)),
        Call::Sheet => reply(calls::sheet(
            itinerary.content(),
            table.content(),
            sheet.content_mut(),
        )),
        Call::Step => reply(calls::step(itinerary.content_mut(), x, y)),
        Call::Run => reply(calls::run(
            itinerary.content_mut(),
            script.content(),
            answers.content_mut(),
        )),
        Call::Check => reply(calls::check(itinerary.content(), policy.content(), table.content())),
        Call::Make => reply(calls::make(
            itinerary.content(),
            policy.content(),
            table.content_mut(),
        )),
        Call::Verdict => reply(calls::verdict(
            itinerary.content(),
            policy.content(),
            table.content(),
        )),
        Call::Row => row(table.content(), x, case.want)?,
        Call::Screen => reply(calls::screen(
            itinerary.content_mut(),
            policy.content(),
            script.content(),
            answers.content_mut(),
        )),
        Call::Exposed => reply(calls::exposed(
            itinerary.content(),
            policy.content(),
            table.content(),
        )),
        Call::Moves => reply(calls::moves(itinerary.content(), list.content_mut())),
        Call::Join => reply(calls::join(
            itinerary.content(),
            second.content(),
            third.content(),
            fourth.content(),
            policy.content(),
            table.content(),
            joined.content_mut(),
        )),
        Call::Copy => reply(calls::copy(itinerary.content_mut(), x)),
    })
}

// Makes the call of a case: whether its answer and what it left are those wanted. None counts as a refusal that no call has.
fn is_as_wanted(case: Case, memory: &mut Memory) -> bool {
    let got = answer(case, memory).unwrap_or(Reply::refused(255, 0));
    memory.as_wanted(got, case.want)
}

// The calls of a file, with a memory of its own, up to its end, to what is no case, or to one that differs; at most a million.
// (What a call that differs has left is no start for the next.)
fn replay(rt: &impl Files, alloc: Global, name: &[u8], tally: &mut Tally) -> Result<(), Fault> {
    let mut file = replay_cases::open(rt, name)?;
    let mut memory = Memory::new(alloc);
    for _ in 0..1000000 {
        let Some(case) = replay_cases::next_case(&mut file, &mut memory)? else {
            return Ok(());
        };
        let right = is_as_wanted(case, &mut memory);
        tally.count(right);
        if !right {
            return Ok(());
        }
    }
    Err(Fault)
}

fn play(rt: &(impl Files + Print), alloc: Global, name: &[u8]) {
    let mut tally = Tally::default();
    let ended = replay(rt, alloc, name, &mut tally);
    replay_cases::finish(rt, name, tally, ended);
}

fn main(rt: HostRuntime) {
    play(&rt, rt.alloc(), b"itinerary.cases");
    play(&rt, rt.alloc(), b"table.cases");
    play(&rt, rt.alloc(), b"screen.cases");
    play(&rt, rt.alloc(), b"moves.cases");
    play(&rt, rt.alloc(), b"join.cases");
    play(&rt, rt.alloc(), b"copy.cases");
}
