// The climb: the container's label, and the number of the nearest boundary ambient.
ghost use Rattle.std.specs.Prelude.{◌≡◌};
ghost use Rattle.model.specs.Numbers.{answer_as};
ghost use Rattle.packing.specs.Packing.{climb_result};

use crate::status::HubStatus;
use model::{Above, Refusal};

#[repr(C)]
#[derive(Clone, Copy, Default)]
pub struct HubClimbResult {
    pub status: HubStatus,
    pub label: u32,
    pub boundary: u32,
}

impl From<Result<Above, Refusal>> for HubClimbResult {
    ghost from_gives = { λ r h. h ≡ climb_result (answer_as r) };

    fn from(r: Result<Above, Refusal>) -> HubClimbResult {
        match r {
            Ok(a) => HubClimbResult {
                label: a.label as u32,
                boundary: a.boundary as u32,
                ..HubClimbResult::default()
            },
            Err(r) => HubClimbResult {
                status: r.into(),
                ..HubClimbResult::default()
            },
        }
    }
}
