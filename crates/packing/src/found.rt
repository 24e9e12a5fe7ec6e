// A verdict as numbers: 1 exposed, 2 hinted, 3 sealed, and its label, 0 if sealed.
ghost use Rattle.std.specs.Prelude.{◌≡◌};
ghost use Rattle.packing.specs.Packing.{found};

use model::Verdict;

#[repr(C)]
#[derive(Clone, Copy, Default)]
pub struct HubFound {
    pub verdict: u32,
    pub label: u32,
}

impl From<Verdict> for HubFound {
    ghost from_gives = { λ v h. h ≡ found v };

    fn from(v: Verdict) -> HubFound {
        match v {
            Verdict::Exposed(k) => HubFound {
                verdict: 1,
                label: k as u32,
            },
            Verdict::Hinted(k) => HubFound {
                verdict: 2,
                label: k as u32,
            },
            Verdict::Sealed => HubFound {
                verdict: 3,
                label: 0,
            },
        }
    }
}
