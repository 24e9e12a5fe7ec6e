// Whether the verdict is exposed: 1 for yes, 0 for no.
ghost use Rattle.std.specs.Prelude.{◌≡◌};
ghost use Rattle.model.specs.Numbers.{answer_as};
ghost use Rattle.packing.specs.Packing.{exposed_result};

use crate::status::HubStatus;
use model::Refusal;

#[repr(C)]
#[derive(Clone, Copy, Default)]
pub struct HubExposedResult {
    pub status: HubStatus,
    pub exposed: u32,
}

impl From<Result<bool, Refusal>> for HubExposedResult {
    ghost from_gives = { λ r h. h ≡ exposed_result (answer_as r) };

    fn from(r: Result<bool, Refusal>) -> HubExposedResult {
        match r {
            Ok(yes) => HubExposedResult {
                exposed: yes as u32,
                ..HubExposedResult::default()
            },
            Err(r) => HubExposedResult {
                status: r.into(),
                ..HubExposedResult::default()
            },
        }
    }
}
