// Validation: the number of records.
ghost use Rattle.std.specs.Prelude.{◌≡◌};
ghost use Rattle.model.specs.Numbers.{answer_as};
ghost use Rattle.packing.specs.Packing.{validate_result};

use crate::status::HubStatus;
use model::Refusal;

#[repr(C)]
#[derive(Clone, Copy, Default)]
pub struct HubValidateResult {
    pub status: HubStatus,
    pub records: u32,
}

impl From<Result<u16, Refusal>> for HubValidateResult {
    ghost from_gives = { λ r h. h ≡ validate_result (answer_as r) };

    fn from(r: Result<u16, Refusal>) -> HubValidateResult {
        match r {
            Ok(n) => HubValidateResult {
                records: n as u32,
                ..HubValidateResult::default()
            },
            Err(r) => HubValidateResult {
                status: r.into(),
                ..HubValidateResult::default()
            },
        }
    }
}
