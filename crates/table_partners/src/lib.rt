// The partners of an itinerary's capabilities, folded into words: 64 labels to each of three kinds.
#![tactic(auto)]

ghost use Rattle.std.specs.Prelude.{◌≡◌, ◌-◌, ◌*◌, true};
ghost use Rattle.model.specs.Validity.{shape, validity};
ghost use Rattle.model.specs.Records.{records};
ghost use Rattle.model.specs.Refusals.{pass};
ghost use Rattle.model.specs.Scripts.{kind_of};
ghost use Rattle.table_partners.specs.Partners.{AllAdded, PartnersAdded, borne, in_h};

use model::{Capability, Rec};
use records::Itinerary;
use table_words::{Columns, Kinds, Words};

// The first of the words of a kind.
#[tactic(auto, unfolding(model::specs::Scripts::kind_of))]
fn first_word(capability: Capability) -> usize
    ensures { result ≡ 64 * (kind_of capability - 2) }
{
    match capability {
        Capability::In => 0,
        Capability::Out => 64,
        Capability::Open => 128,
    }
}

// Adds the labels that bear the name which a capability targets to the word of its kind and label. It counts wherever it
// stands, active or not.
fn add_partners(r: Rec, bearers: &Columns, partners: &mut Kinds)
    requires { shape r ≡ true }
    ensures { PartnersAdded (borne bearers.now) r partners.old partners.new }
{
    let Some(capability) = r.capability() else {
        return;
    };
    let slot = first_word(capability) + ((r.label as usize) - 64);
    let name = r.name as usize;
    partners[slot] |= bearers[name];
}

// Adds the partners of all capabilities, by the names in H of the table w. (`valid` is what the itinerary's type says, for those
// who only pass it on.)
pub fn partners_of(it: &Itinerary, w: &Words, partners: &mut Kinds)
    ensures partners { AllAdded (records it.now) (in_h w.now) partners.old partners.new }
    ensures valid { validity it.now ≡ pass }
{
    let mut bearers = [0u64; table_words::BITS];
    table_words::transpose(w, 128, 1, &mut bearers);
    for i in 0..it.count() {
        let r = records::record_in(it.bytes, i + 1);
        add_partners(r, &bearers, partners);
    }
}
