// What each result begins with, and all that check, join, sheet and step answer: a refusal's number and record, both 0
// where the call is done.
ghost use Rattle.std.specs.Prelude.{◌≡◌};
ghost use Rattle.model.specs.Numbers.{answer_as, number_of};
ghost use Rattle.packing.specs.Packing.{done_result, status};

use model::Refusal;

#[repr(C)]
#[derive(Clone, Copy, Default)]
pub struct HubStatus {
    pub number: u32,
    pub record: u32,
}

impl From<Refusal> for HubStatus {
    ghost from_gives = { λ r s. s ≡ status (number_of r.cause) r.«record» };

    fn from(r: Refusal) -> HubStatus {
        HubStatus {
            number: r.cause.number() as u32,
            record: r.record as u32,
        }
    }
}

impl From<Result<(), Refusal>> for HubStatus {
    ghost from_gives = { λ r s. s ≡ done_result (answer_as r) };

    fn from(r: Result<(), Refusal>) -> HubStatus {
        match r {
            Ok(()) => HubStatus::default(),
            Err(r) => r.into(),
        }
    }
}
