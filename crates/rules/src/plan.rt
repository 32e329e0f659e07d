// Plans: paper 01, "Calls", Open, and paper 02, card 3.
ghost use Rattle.std.specs.Prelude.{◌≡◌, ◌&&◌, eqb, leb};
ghost use Rattle.model.specs.Stations.{valid_ranges, valid_ceiling, valid_plan};
ghost use Rattle.plans.specs.Limits.{within, largest_clearance, largest_interval};
ghost use Rattle.model.specs.Figuring.{started as started_figures, with_level, no_level};

use model::{Figures, Plan};
use plans::level::LevelState;
use plans::limits;

// Kept: a kind stays a number: `is_valid`, `asking::verdict` and `listening::open` promise an answer for a plan of every number.
pub const CREDIT: u32 = 1;

pub const LEVEL: u32 = 2;

pub const CONTINUOUS: u32 = 3;

// Whether a stream may be opened so: what refusal 5 leaves.
// Kept: a bool, no type for a valid plan: `asking::verdict` and `answering::read_figure` promise an answer for every plan.
#[tactic(auto, unfolding(model::specs::Stations::valid_plan))]
pub fn is_valid(plan: Plan) -> bool
    ensures { result ≡ valid_plan plan }
{
    is_in_ranges(plan) & may_have_ceiling(plan)
}

// The figures of a stream that has just been opened.
#[tactic(auto, unfolding(model::specs::Figuring::started, model::specs::Stations::is_level))]
pub fn started(plan: Plan) -> Figures
    ensures { result ≡ started_figures plan }
{
    if plan.kind == LEVEL {
        return Figures {
            level: LevelState::start(),
            ..no_figures()
        };
    }
    no_figures()
}

// The figures that are foreign to a plan are zero.
pub fn no_figures() -> Figures
    ensures { result ≡ with_level no_level }
{
    Figures::default()
}

// Whether A, B and the option are in the ranges of the plan's kind.
#[tactic(auto, unfolding(model::specs::Stations::valid_ranges, model::specs::Stations::is_credit, model::specs::Stations::is_level, model::specs::Stations::is_continuous))]
fn is_in_ranges(plan: Plan) -> bool
    ensures { result ≡ valid_ranges plan }
{
    match plan.kind {
        CREDIT => is_for_lots(plan, limits::LARGEST_AOQL),
        LEVEL => is_for_lots(plan, limits::VERIFICATION_LEVELS),
        CONTINUOUS => is_for_blocks(plan),
        _ => false,
    }
}

// Whether the plan may have its ceiling: only a credit plan sets one.
#[tactic(auto, unfolding(model::specs::Stations::valid_ceiling, model::specs::Stations::is_credit))]
fn may_have_ceiling(plan: Plan) -> bool
    ensures { result ≡ valid_ceiling plan }
{
    if plan.kind == CREDIT {
        return plan.ceiling <= limits::LARGEST_CEILING;
    }
    plan.ceiling == 0
}

// What refusal 5 leaves of a plan for lots, whose A is at most so large, but for the ceiling.
fn is_for_lots(plan: Plan, most: u32) -> bool
    ensures { result ≡ within 1 most plan.a && eqb plan.b 0 && leb plan.option 1 }
{
    limits::within(1, most, plan.a) && plan.b == 0 && plan.option <= 1
}

// What refusal 5 leaves of a continuous plan, but for the ceiling.
fn is_for_blocks(plan: Plan) -> bool
    ensures { result ≡ within 1 largest_clearance plan.a && within 2 largest_interval plan.b && eqb plan.option 0 }
{
    limits::within(1, limits::LARGEST_CLEARANCE, plan.a)
        && limits::within(2, limits::LARGEST_INTERVAL, plan.b)
        && plan.option == 0
}
