// The screen: verdict and label, bits set, ins, outs and opens done, records not gone.
ghost use Rattle.std.specs.Prelude.{◌≡◌};
ghost use Rattle.model.specs.Numbers.{answer_as};
ghost use Rattle.packing.specs.Packing.{screen_result};

use crate::counts::HubCounts;
use crate::found::HubFound;
use crate::status::HubStatus;
use model::{Refusal, Screen};

#[repr(C)]
#[derive(Clone, Copy, Default)]
pub struct HubScreenResult {
    pub status: HubStatus,
    pub found: HubFound,
    pub bits: u32,
    pub counts: HubCounts,
    pub records: u32,
}

impl From<Result<Screen, Refusal>> for HubScreenResult {
    ghost from_gives = { λ r h. h ≡ screen_result (answer_as r) };

    fn from(r: Result<Screen, Refusal>) -> HubScreenResult {
        match r {
            Ok(s) => HubScreenResult {
                status: HubStatus::default(),
                found: s.verdict.into(),
                bits: s.ones as u32,
                counts: s.counts.into(),
                records: s.records as u32,
            },
            Err(r) => HubScreenResult {
                status: r.into(),
                ..HubScreenResult::default()
            },
        }
    }
}
