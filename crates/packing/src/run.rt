// The script run: the ins, outs and opens done.
ghost use Rattle.std.specs.Prelude.{◌≡◌};
ghost use Rattle.model.specs.Numbers.{answer_as};
ghost use Rattle.packing.specs.Packing.{run_result};

use crate::counts::HubCounts;
use crate::status::HubStatus;
use model::{Counts, Refusal};

#[repr(C)]
#[derive(Clone, Copy, Default)]
pub struct HubRunResult {
    pub status: HubStatus,
    pub counts: HubCounts,
}

impl From<Result<Counts, Refusal>> for HubRunResult {
    ghost from_gives = { λ r h. h ≡ run_result (answer_as r) };

    fn from(r: Result<Counts, Refusal>) -> HubRunResult {
        match r {
            Ok(c) => HubRunResult {
                counts: c.into(),
                ..HubRunResult::default()
            },
            Err(r) => HubRunResult {
                status: r.into(),
                ..HubRunResult::default()
            },
        }
    }
}
