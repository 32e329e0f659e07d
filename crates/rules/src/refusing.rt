// The refusals, and which of them a call gets on an opened stream: paper 01, "Calls", each list of refusals in the paper's order. The last
// of a call that enters something (13 of a lot, 14 of a run or block, 15 of a stop) is not tested here: it is given where the step of the
// plan fails. 17 (paper 02, card 1) comes behind it, so that it has a test of its own: `recorded`.
// The tests that the steps share stand below.
ghost use Rattle.std.specs.Prelude.{◌≡◌, not, ◌&&◌, ◌||◌, ◌+◌, ◌-◌, ◌≤◌, T, eqb};
ghost use Rattle.plans.specs.Limits.{largest_lot, within};
ghost use Rattle.plans.specs.Verdicts.{lot_heard, lot_withheld};
ghost use Rattle.model.specs.Sizes.{most_records};
ghost use Rattle.model.specs.Stations.{valid_plan, is_level};
ghost use Rattle.model.specs.Calls.{first_refusal, ask_refusals, is_discontinued, same_label, size_in_range, counts_agree};
ghost use Rattle.model.specs.FigureBounds.{FiguresWithin};
ghost use Rattle.rules.specs.Refusing.{refusal_number, LotUpToLast, RunUpToLast, BlockUpToLast, StopUpToLast, recording_refusals, may_follow, is_stop};

use crate::{asking, plan};
use model::sizes::MOST_RECORDS;
use model::{Figures, Plan, Recording};
use plans::{LotSize, SampleSize, level, limits, stops, verdict};

// Why a call on a store is refused: paper 01, "Calls", and paper 02, cards 1 and 3. Each case has the paper's number.
#[derive(Clone, Copy, PartialEq, Eq)]
pub enum Refusal {
    StoreLength = 1,
    Stream = 2,
    Unsound = 3,
    AlreadyOpen = 4,
    InvalidPlan = 5,
    Unopened = 6,
    OtherPlan = 7,
    Discontinued = 8,
    Full = 9,
    SameLabel = 10,
    Size = 11,
    Sample = 12,
    Counts = 13,
    Phase = 14,
    Range = 15,
    NothingStands = 16,
    NoRecording = 17,
}

// The refusal of a lot, up to 12.
// Kept: plan, figures and count apart: of the four below, `run` and `block` take no figures, `stop` no plan and `ask` no count.
#[tactic(auto, using(crate::proofs::Counts::size_passed, crate::proofs::Counts::credit_within), unfolding(model::specs::Calls::first_refusal, model::specs::Calls::rule_refusals, model::specs::Calls::is_full, model::specs::Stations::is_continuous, crate::specs::Refusing::earlier, crate::specs::Refusing::LotUpToLast))]
pub fn lot(
    plan: Plan,
    figures: Figures,
    count: usize,
    label: u32,
    size: LotSize,
    sample: SampleSize,
) -> Result<(), Refusal>
    requires { T (valid_plan plan) × FiguresWithin count figures × (count ≤ most_records) }
    ensures { LotUpToLast plan figures count label size.0 sample.0 (refusal_number result) }
{
    if plan.kind == plan::CONTINUOUS {
        return Err(Refusal::OtherPlan);
    }
    if is_discontinued(figures) {
        return Err(Refusal::Discontinued);
    }
    if MOST_RECORDS <= count {
        return Err(Refusal::Full);
    }
    if is_same_label(figures.above, label) {
        return Err(Refusal::SameLabel);
    }
    if !is_size(plan, size) {
        return Err(Refusal::Size);
    }
    if sample.0 != asking::sample(plan, figures, size).0 {
        return Err(Refusal::Sample);
    }
    Ok(())
}

// The refusal of a run, up to 15.
#[tactic(auto, unfolding(model::specs::Calls::first_refusal, model::specs::Calls::rule_refusals, model::specs::Calls::is_full, model::specs::Stations::is_continuous, crate::specs::Refusing::earlier, crate::specs::Refusing::RunUpToLast))]
pub fn run(plan: Plan, count: usize, right: u32, wrong: u32) -> Result<(), Refusal>
    ensures { RunUpToLast plan count right wrong (refusal_number result) }
{
    if plan.kind != plan::CONTINUOUS {
        return Err(Refusal::OtherPlan);
    }
    if MOST_RECORDS <= count {
        return Err(Refusal::Full);
    }
    if limits::LONGEST_RUN < right || 1 < wrong || right + wrong == 0 {
        return Err(Refusal::Range);
    }
    Ok(())
}

// The refusal of a block, up to 15.
// Kept: beside `run`, with which it shares 7 and 9: each is its own list in paper 01, in the order of the paper.
#[tactic(auto, unfolding(model::specs::Calls::first_refusal, model::specs::Calls::rule_refusals, model::specs::Calls::is_full, model::specs::Stations::is_continuous, crate::specs::Refusing::earlier, crate::specs::Refusing::BlockUpToLast))]
pub fn block(plan: Plan, count: usize, heard: u32, wrong: u32) -> Result<(), Refusal>
    ensures { BlockUpToLast plan count heard wrong (refusal_number result) }
{
    if plan.kind != plan::CONTINUOUS {
        return Err(Refusal::OtherPlan);
    }
    if MOST_RECORDS <= count {
        return Err(Refusal::Full);
    }
    if !is_in_block(plan.b, heard) || 1 < wrong {
        return Err(Refusal::Range);
    }
    Ok(())
}

// The refusal of a stop, up to 9.
#[tactic(auto, unfolding(model::specs::Calls::first_refusal, model::specs::Calls::rule_refusals, model::specs::Calls::is_full, model::specs::Stations::is_continuous, crate::specs::Refusing::earlier, crate::specs::Refusing::StopUpToLast))]
pub fn stop(figures: Figures, count: usize) -> Result<(), Refusal>
    ensures { StopUpToLast figures count (refusal_number result) }
{
    if is_discontinued(figures) {
        return Err(Refusal::Discontinued);
    }
    if MOST_RECORDS <= count {
        return Err(Refusal::Full);
    }
    Ok(())
}

// 17, which comes behind all of paper 01's of a lot, run or block: there is no recording to find.
#[tactic(auto, unfolding(model::specs::Calls::first_refusal, crate::specs::Refusing::recording_refusals))]
pub fn recorded(recording: Recording) -> Result<(), Refusal>
    ensures { refusal_number result ≡ first_refusal (recording_refusals recording) }
{
    if recording.number == 0 {
        return Err(Refusal::NoRecording);
    }
    Ok(())
}

// The refusal of an ask.
#[tactic(auto, unfolding(model::specs::Calls::first_refusal, model::specs::Calls::ask_refusals, model::specs::Stations::is_continuous))]
pub fn ask(plan: Plan, figures: Figures, size: LotSize) -> Result<(), Refusal>
    ensures { refusal_number result ≡ first_refusal (ask_refusals plan figures size.0) }
{
    if plan.kind == plan::CONTINUOUS {
        return Err(Refusal::OtherPlan);
    }
    if is_discontinued(figures) {
        return Err(Refusal::Discontinued);
    }
    if !is_size(plan, size) {
        return Err(Refusal::Size);
    }
    Ok(())
}

// 8: the stream is discontinued.
#[tactic(auto, unfolding(model::specs::Calls::is_discontinued))]
pub fn is_discontinued(figures: Figures) -> bool
    ensures { result ≡ is_discontinued figures }
{
    let state = figures.level;
    state.level == level::DISCONTINUED
}

// 10: the newest standing lot's label again.
fn is_same_label(above: u64, label: u32) -> bool
    ensures { result ≡ same_label above label }
{
    label as u64 + 1 == above
}

// What 11 leaves.
#[tactic(auto, unfolding(model::specs::Calls::size_in_range, model::specs::Stations::is_level))]
fn is_size(plan: Plan, size: LotSize) -> bool
    ensures { result ≡ size_in_range plan size.0 }
{
    if plan.kind == plan::LEVEL {
        return is_size_from(limits::LEAST_LEVEL_LOT, size);
    }
    is_size_from(limits::LEAST_LOT, size)
}

// The same on a stream whose lots have at least so many detections.
fn is_size_from(least: u32, size: LotSize) -> bool
    ensures { result ≡ within least largest_lot size.0 }
{
    limits::within(least, limits::LARGEST_LOT, size.0)
}

// What 10 and 11 leave of a lot on a stream whose lots have at least so many detections.
#[tactic(auto, unfolding(crate::specs::Refusing::may_follow))]
pub fn may_follow(least: u32, above: u64, label: u32, size: LotSize) -> bool
    ensures { result ≡ may_follow least above label size.0 }
{
    !is_same_label(above, label) && is_size_from(least, size)
}

// What 15 leaves of a block: the detection that was heard is one of the block's.
pub fn is_in_block(interval: u32, heard: u32) -> bool
    ensures { result ≡ within 1 interval heard }
{
    limits::within(1, interval, heard)
}

// What 15 leaves of a stop.
// Speed: two tests and no `match`, which the compiler turns about: then a pause costs a comparison more in the loop of each replay, and a
// long stream of credit lots and stops takes up to 1.36 times as long.
#[tactic(auto, unfolding(crate::specs::Refusing::is_stop))]
pub fn is_stop(why: u32, days: u32) -> bool
    ensures { result ≡ is_stop why days }
{
    if why == stops::SET_UP_CHANGED {
        days == 0
    } else {
        why == stops::PAUSE && days <= limits::LONGEST_STOP
    }
}

// Whether the counts of a lot agree: what refusal 13 leaves.
// Kept: a lot's numbers apart, here and in `may_follow`: `HeardLot` has no sample and no verdict, and a good lot's counts are not looked
// at.
#[tactic(auto, unfolding(model::specs::Calls::counts_agree))]
pub fn do_counts_agree(
    verdict: u32,
    size: LotSize,
    sample: SampleSize,
    wrong: u32,
    wrong_in_all: u32,
) -> bool
    requires { (sample.0 ≤ size.0) × (size.0 ≤ largest_lot) }
    ensures { result ≡ counts_agree verdict size.0 sample.0 wrong wrong_in_all }
{
    wrong <= sample.0
        && is_none_missed(wrong, wrong_in_all)
        && is_by_verdict(verdict, size, sample, wrong, wrong_in_all)
}

// Without a wrong one in the sample there is none in all that was heard.
fn is_none_missed(wrong: u32, wrong_in_all: u32) -> bool
    ensures { result ≡ not (eqb wrong 0) || eqb wrong_in_all 0 }
{
    wrong != 0 || wrong_in_all == 0
}

// The range of all that was found wrong, by the verdict.
fn is_by_verdict(
    verdict: u32,
    size: LotSize,
    sample: SampleSize,
    wrong: u32,
    wrong_in_all: u32,
) -> bool
    requires { (wrong ≤ sample.0) × (sample.0 ≤ size.0) × (size.0 ≤ largest_lot) }
    ensures { result ≡ (not (eqb verdict lot_heard) || within wrong (size.0 - sample.0 + wrong) wrong_in_all) && (not (eqb verdict lot_withheld) || eqb wrong_in_all wrong) }
{
    match verdict {
        verdict::HEARD => limits::within(wrong, size.0 - sample.0 + wrong, wrong_in_all),
        verdict::WITHHELD => wrong_in_all == wrong,
        _ => true,
    }
}
