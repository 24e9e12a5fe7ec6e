// A check of a call as a value: it passes, or it refuses.
#![tactic(auto, unfolding(model::specs::Numbers::check_as, model::specs::Refusals::need))]

ghost use Rattle.std.specs.Prelude.{◌≡◌};
ghost use Rattle.model.specs.Numbers.{check_as, number_of};
ghost use Rattle.model.specs.Refusals.{need};

use model::{Cause, Refusal};

// Refuses with the cause, at the record, unless the test is true.
pub fn need(test: bool, cause: Cause, record: u16) -> Result<(), Refusal>
    ensures { check_as result ≡ need test (number_of cause) «record» }
{
    if test {
        return Ok(());
    }
    Err(Refusal { cause, record })
}
