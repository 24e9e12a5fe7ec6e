// The results of the calls for callers in other languages: a struct for each call, with number and record first, and how
// an answer is packed into it. All fields have 32 bits, whatever they count.
// The C interface takes no generic struct, so that what several results begin with or have in common is a struct of its own.
#![tactic(auto, unfolding(crate::specs::Packing::status, crate::specs::Packing::found, crate::specs::Packing::unfound, crate::specs::Packing::counts, crate::specs::Packing::uncounted, crate::specs::Packing::done_result, crate::specs::Packing::validate_result, crate::specs::Packing::climb_result, crate::specs::Packing::run_result, crate::specs::Packing::copy_result, crate::specs::Packing::moves_result, crate::specs::Packing::make_result, crate::specs::Packing::verdict_result, crate::specs::Packing::exposed_result, crate::specs::Packing::part_result, crate::specs::Packing::screen_result, model::specs::Numbers::answer_as, model::specs::Numbers::refusal, model::specs::Numbers::verdict_code, model::specs::Numbers::label_of, model::specs::Finite::one_if))]

pub mod climb;
pub mod copy;
pub mod counts;
pub mod exposed;
pub mod found;
pub mod make;
pub mod moves;
pub mod row;
pub mod run;
pub mod screen;
pub mod status;
pub mod validate;
pub mod verdict;
