// The list of moves: how many pairs of actor and partner would answer 0, 10, 11 and 12.
ghost use Rattle.std.specs.Prelude.{◌≡◌};
ghost use Rattle.model.specs.Numbers.{answer_as};
ghost use Rattle.packing.specs.Packing.{moves_result};

use crate::status::HubStatus;
use model::{Refusal, Tally};

#[repr(C)]
#[derive(Clone, Copy, Default)]
pub struct HubMovesResult {
    pub status: HubStatus,
    pub done: u32,
    pub no_capability: u32,
    pub inactive: u32,
    pub unfit: u32,
}

impl From<Result<Tally, Refusal>> for HubMovesResult {
    ghost from_gives = { λ r h. h ≡ moves_result (answer_as r) };

    fn from(r: Result<Tally, Refusal>) -> HubMovesResult {
        match r {
            Ok(t) => HubMovesResult {
                status: HubStatus::default(),
                done: t.done,
                no_capability: t.no_capability,
                inactive: t.inactive,
                unfit: t.unfit,
            },
            Err(r) => HubMovesResult {
                status: r.into(),
                ..HubMovesResult::default()
            },
        }
    }
}
