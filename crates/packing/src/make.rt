// The maker: how many bits of the table are one.
ghost use Rattle.std.specs.Prelude.{◌≡◌};
ghost use Rattle.model.specs.Numbers.{answer_as};
ghost use Rattle.packing.specs.Packing.{make_result};

use crate::status::HubStatus;
use model::Refusal;

#[repr(C)]
#[derive(Clone, Copy, Default)]
pub struct HubMakeResult {
    pub status: HubStatus,
    pub bits: u32,
}

impl From<Result<u16, Refusal>> for HubMakeResult {
    ghost from_gives = { λ r h. h ≡ make_result (answer_as r) };

    fn from(r: Result<u16, Refusal>) -> HubMakeResult {
        match r {
            Ok(n) => HubMakeResult {
                bits: n as u32,
                ..HubMakeResult::default()
            },
            Err(r) => HubMakeResult {
                status: r.into(),
                ..HubMakeResult::default()
            },
        }
    }
}
