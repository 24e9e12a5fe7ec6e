// The verdict: which one, and its label, 0 if sealed.
ghost use Rattle.std.specs.Prelude.{◌≡◌};
ghost use Rattle.model.specs.Numbers.{answer_as};
ghost use Rattle.packing.specs.Packing.{verdict_result};

use crate::found::HubFound;
use crate::status::HubStatus;
use model::{Refusal, Verdict};

#[repr(C)]
#[derive(Clone, Copy, Default)]
pub struct HubVerdictResult {
    pub status: HubStatus,
    pub found: HubFound,
}

impl From<Result<Verdict, Refusal>> for HubVerdictResult {
    ghost from_gives = { λ r h. h ≡ verdict_result (answer_as r) };

    fn from(r: Result<Verdict, Refusal>) -> HubVerdictResult {
        match r {
            Ok(v) => HubVerdictResult {
                found: v.into(),
                ..HubVerdictResult::default()
            },
            Err(r) => HubVerdictResult {
                status: r.into(),
                ..HubVerdictResult::default()
            },
        }
    }
}
