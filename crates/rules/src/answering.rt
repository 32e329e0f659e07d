// What a call gives: paper 01, "Calls".
ghost use Rattle.std.specs.Prelude.{◌≡◌, ◌≤◌, eqb};
ghost use Rattle.plans.specs.Limits.{largest_interval};
ghost use Rattle.plans.specs.Verdicts.{accepted_of};
ghost use Rattle.plans.specs.Continuous.{after_block};
ghost use Rattle.model.specs.Figuring.{verdict_on};
ghost use Rattle.model.specs.Calls.{
  gives as gives_these,
  refused as refused_by,
  lot_figure,
  read_figure,
};
ghost use Rattle.rules.specs.Refusing.{number_of, answered};

use crate::refusing::Refusal;
use crate::{asking, plan};
use model::{Answer, Figures, HeardLot, Plan};
use plans::{continuous, verdict};

// A refusal gives three zeros.
// Kept: takes a number, beside `From<Refusal>`: this public function promises an answer for every number (`refused_by`).
pub fn refused(refusal: u32) -> Answer
    ensures { result ≡ refused_by refusal }
{
    Answer {
        refusal,
        first: 0,
        second: 0,
        third: 0,
    }
}

impl From<Refusal> for Answer {
    ghost from_gives = { λ refusal answer. answer ≡ refused_by (number_of refusal) };

    fn from(refusal: Refusal) -> Answer {
        refused(refusal as u32)
    }
}

// What a call gives, as a whole: its numbers, or its refusal's.
pub fn answered(tried: Result<Answer, Refusal>) -> Answer
    ensures { result ≡ answered tried }
{
    tried.unwrap_or_else(Answer::from)
}

pub fn gives(first: u32, second: u32, third: u32) -> Answer
    ensures { result ≡ gives_these first second third }
{
    Answer {
        refusal: 0,
        first,
        second,
        third,
    }
}

// Credit, or level, or c, in sampling 65,536 + u.
#[tactic(auto, unfolding(model::specs::Calls::read_figure, model::specs::Stations::is_continuous, plans::specs::Continuous::is_sampling))]
pub fn read_figure(plan: Plan, figures: Figures) -> u32
    ensures { result ≡ read_figure plan figures }
{
    if plan.kind != plan::CONTINUOUS {
        return lot_figure(plan, figures);
    }
    let state = figures.continuous;
    if state.phase == continuous::SAMPLING {
        return 65536 + state.tail as u32;
    }
    state.count
}

// Credit, or level.
#[tactic(auto, unfolding(model::specs::Calls::lot_figure, model::specs::Stations::is_credit))]
fn lot_figure(plan: Plan, figures: Figures) -> u32
    ensures { result ≡ lot_figure plan figures }
{
    if plan.kind == plan::CREDIT {
        let credit = figures.credit;
        return credit.0;
    }
    let state = figures.level;
    state.level
}

// What an accepted lot gives, from the figures before and after it.
pub fn lot(plan: Plan, figures: Figures, after: Figures, lot: HeardLot) -> Answer
    requires { lot.wrong_in_all ≤ lot.size.0 }
    ensures { result ≡ gives_these (verdict_on plan figures lot.wrong) (accepted_of (verdict_on plan figures lot.wrong) lot.size.0 lot.wrong_in_all) (lot_figure plan after) }
{
    let verdict = asking::verdict(plan, figures, lot.wrong);
    let accepted = verdict::accepted_of(verdict, lot.size, lot.wrong_in_all);
    gives(verdict, accepted, lot_figure(plan, after))
}

// What an accepted run gives, from the figures after it.
pub fn run(after: Figures, right: u32) -> Answer
    ensures { result ≡ gives_these right after.continuous.phase 0 }
{
    let state = after.continuous;
    gives(right, state.phase as u32, 0)
}

// What an accepted block gives, from the figures before and after it.
pub fn block(plan: Plan, figures: Figures, after: Figures, heard: u32, wrong: u32) -> Answer
    requires { (1 ≤ heard) × (heard ≤ plan.b) × (plan.b ≤ largest_interval) }
    ensures { result ≡ gives_these (after_block plan.b heard (eqb wrong 1) figures.continuous).accepted (after_block plan.b heard (eqb wrong 1) figures.continuous).hear_back after.continuous.phase }
{
    let heard_block = asking::block(plan, figures, heard, wrong);
    let state = after.continuous;
    gives(
        heard_block.accepted,
        heard_block.hear_back,
        state.phase as u32,
    )
}
