// The row request: the offset of a part of the table, and its length. It never refuses.
ghost use Rattle.std.specs.Prelude.{◌≡◌};
ghost use Rattle.packing.specs.Packing.{part_result};

use crate::status::HubStatus;

#[repr(C)]
#[derive(Clone, Copy)]
pub struct HubRowResult {
    pub status: HubStatus,
    pub offset: u32,
    pub length: u32,
}

impl HubRowResult {
    pub fn new(offset: u32, length: u32) -> HubRowResult
        ensures { result ≡ part_result offset length }
    {
        HubRowResult {
            status: HubStatus::default(),
            offset,
            length,
        }
    }
}
