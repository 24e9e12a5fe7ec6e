// How many ins, outs and opens were done.
ghost use Rattle.std.specs.Prelude.{◌≡◌};
ghost use Rattle.packing.specs.Packing.{counts};

use model::Counts;

#[repr(C)]
#[derive(Clone, Copy, Default)]
pub struct HubCounts {
    pub ins: u32,
    pub outs: u32,
    pub opens: u32,
}

impl From<Counts> for HubCounts {
    ghost from_gives = { λ c h. h ≡ counts c };

    fn from(c: Counts) -> HubCounts {
        HubCounts {
            ins: c.ins as u32,
            outs: c.outs as u32,
            opens: c.opens as u32,
        }
    }
}
