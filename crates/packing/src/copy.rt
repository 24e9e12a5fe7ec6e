// Copying: how many records were copied.
ghost use Rattle.std.specs.Prelude.{◌≡◌};
ghost use Rattle.model.specs.Numbers.{answer_as};
ghost use Rattle.packing.specs.Packing.{copy_result};

use crate::status::HubStatus;
use model::Refusal;

#[repr(C)]
#[derive(Clone, Copy, Default)]
pub struct HubCopyResult {
    pub status: HubStatus,
    pub copied: u32,
}

impl From<Result<u16, Refusal>> for HubCopyResult {
    ghost from_gives = { λ r h. h ≡ copy_result (answer_as r) };

    fn from(r: Result<u16, Refusal>) -> HubCopyResult {
        match r {
            Ok(n) => HubCopyResult {
                copied: n as u32,
                ..HubCopyResult::default()
            },
            Err(r) => HubCopyResult {
                status: r.into(),
                ..HubCopyResult::default()
            },
        }
    }
}
