//! What stands at a step, and what a value is with another there.
ghost use Rattle.std.specs.Prelude.{◌≡◌, option_map, IfOk, is_some, true};
ghost use Rattle.std.specs.Option.{option_copied};
ghost use Rattle.room_json.specs.View.{json_of};
ghost use Rattle.room_model.specs.Notices.{step_into as step_into_of, step_out as step_out_of};
ghost use Rattle.room_notice.specs.Notices.{place_of};

use crate::lists::with_item;
use crate::shapes::Step;
use room_json::{Copied, Json, NoMemory};
use std::alloc::Global;

/// What stands at a step, None where nothing does.
#[tactic(auto, using(room_json::proofs::Values::list_laws))]
pub(crate) fn step_into<'a>(step: &Step, v: &'a Json) -> Option<&'a Json>
    ensures { option_map json_of (option_copied result) ≡ step_into_of (place_of step.now) (json_of v.now) }
{
    match step {
        Step::Key(name) => v.as_object()?.find(name),
        Step::Index(index) => v.as_list()?.get(*index),
    }
}

/// A copy of a value with another at a step that is there.
#[tactic(auto, using(room_json::proofs::Values::list_laws, crate::proofs::Items::index_there))]
pub(crate) fn step_out(alloc: Global, step: &Step, v: &Json, inner: Json) -> Result<Json, NoMemory>
    requires { is_some (step_into_of (place_of step.now) (json_of v.now)) ≡ true }
    ensures { IfOk result (λ y. json_of y ≡ step_out_of (place_of step.now) (json_of v.now) (json_of inner)) }
{
    match (step, v) {
        (Step::Key(name), Json::Object(members)) => {
            let mut next = members.copy(alloc)?;
            drop(next.set(name.copy(alloc)?, inner)?);
            Ok(Json::Object(next))
        }
        (Step::Index(index), Json::List(items)) => {
            Ok(Json::List(with_item(alloc, items, *index, inner)?))
        }
        _ => v.copy(alloc),
    }
}
