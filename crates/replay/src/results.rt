// What each call answers, as stored cases have it: number and record of a refusal, or the values of a call that is done.
use model::{Above, Counts, Refusal, Screen, Tally, Verdict};
use replay_compare::Reply;

// What a call returns, as up to six values; the others are 0.
pub trait Values {
    fn values(self) -> [u32; 6];
}

// The reply of a call.
pub(super) fn reply<T: Values>(r: Result<T, Refusal>) -> Reply {
    match r {
        Ok(x) => Reply::done(x.values()),
        Err(r) => Reply::refused(r.cause.number(), r.record),
    }
}

impl Values for () {
    fn values(self) -> [u32; 6] {
        [0; 6]
    }
}

// A count.
impl Values for u16 {
    fn values(self) -> [u32; 6] {
        [self as u32, 0, 0, 0, 0, 0]
    }
}

// 1 yes, 0 no
impl Values for bool {
    fn values(self) -> [u32; 6] {
        [self as u32, 0, 0, 0, 0, 0]
    }
}

impl Values for Above {
    fn values(self) -> [u32; 6] {
        [self.label as u32, self.boundary as u32, 0, 0, 0, 0]
    }
}

impl Values for Counts {
    fn values(self) -> [u32; 6] {
        let Counts { ins, outs, opens } = self;
        [ins as u32, outs as u32, opens as u32, 0, 0, 0]
    }
}

impl Values for Tally {
    fn values(self) -> [u32; 6] {
        let Tally {
            done,
            no_capability,
            inactive,
            unfit,
        } = self;
        [done, no_capability, inactive, unfit, 0, 0]
    }
}

// 1 exposed, 2 hinted, 3 sealed; and the label, 0 if sealed. (packing has it for C: a replay stands on the calls alone.)
fn code_and_label(v: Verdict) -> (u8, u8) {
    match v {
        Verdict::Exposed(k) => (1, k),
        Verdict::Hinted(k) => (2, k),
        Verdict::Sealed => (3, 0),
    }
}

impl Values for Verdict {
    fn values(self) -> [u32; 6] {
        let (code, label) = code_and_label(self);
        [code as u32, label as u32, 0, 0, 0, 0]
    }
}

impl Values for Screen {
    fn values(self) -> [u32; 6] {
        let (code, label) = code_and_label(self.verdict);
        let Counts { ins, outs, opens } = self.counts;
        [
            256 * (code as u32) + label as u32,
            self.ones as u32,
            ins as u32,
            outs as u32,
            opens as u32,
            self.records as u32,
        ]
    }
}
