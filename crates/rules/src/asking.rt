// What a lot asks for and what it gets, and what a block gives: paper 01, "Credit lots", "Level lots" and "Continuous".
ghost use Rattle.std.specs.Prelude.{◌≡◌, true, false, ◌≤◌, T, eqb};
ghost use Rattle.plans.specs.Limits.{largest_credit, largest_lot, largest_interval};
ghost use Rattle.plans.specs.Credit.{sample_dividend, sample_divisor, LeastNotBelow};
ghost use Rattle.plans.specs.Continuous.{after_block};
ghost use Rattle.model.specs.Stations.{valid_plan, is_credit, is_continuous};
ghost use Rattle.model.specs.Figuring.{sample_asked, verdict_on};

use crate::plan;
use model::{Figures, Plan};
use plans::continuous::Block;
use plans::tables::VerificationLevel;
use plans::{LotSize, SampleSize, verdict};

// The sample that a lot asks for: on a credit plan, the least whole number not below the quotient of document 004, clause 10, note 1.
#[tactic(auto, using(model::proofs::Allowed::plan_range, model::proofs::Allowed::level_plan), unfolding(model::specs::Stations::is_credit, model::specs::Figuring::sample_asked))]
pub fn sample(plan: Plan, figures: Figures, size: LotSize) -> SampleSize
    requires { T (valid_plan plan) × (is_continuous plan ≡ false) × (figures.credit.0 ≤ largest_credit) × (1 ≤ size.0) × (size.0 ≤ largest_lot) }
    ensures result_value { result.0 ≡ sample_asked plan figures size.0 }
    ensures least { is_credit plan ≡ true → LeastNotBelow (sample_dividend size.0) (sample_divisor figures.credit.0 plan.ceiling size.0 plan.a) result.0 }
    ensures range { result.0 ≤ size.0 }
{
    if plan.kind == plan::CREDIT {
        let credit = figures.credit;
        return credit.sample(plan.ceiling, size, plan.a);
    }
    let level = figures.level;
    VerificationLevel { number: plan.a }.sample_size(level.level, size)
}

// The verdict on a lot with so many wrong in its sample.
#[tactic(auto, unfolding(model::specs::Figuring::verdict_on, model::specs::Stations::is_credit, model::specs::Stations::has_option))]
pub fn verdict(plan: Plan, figures: Figures, wrong: u32) -> u32
    ensures { result ≡ verdict_on plan figures wrong }
{
    if plan.kind == plan::CREDIT {
        let credit = figures.credit;
        return credit.verdict(plan.option == 1, wrong);
    }
    verdict::of_level_lot(wrong)
}

// What a block gives.
// Kept: `1 ≤ heard`, at most the interval, is asked here and in two more: `answering::block` has to say that the interval is the plan's.
pub fn block(plan: Plan, figures: Figures, heard: u32, wrong: u32) -> Block
    requires { (1 ≤ heard) × (heard ≤ plan.b) × (plan.b ≤ largest_interval) }
    ensures { result ≡ after_block plan.b heard (eqb wrong 1) figures.continuous }
{
    let continuous = figures.continuous;
    continuous.block(plan.b, heard, wrong == 1)
}
