// Reading an area: its records are replayed by the loop of its plan, and its header and zeros compared with what they leave.
#![tactic(auto)]

ghost use Rattle.std.specs.Prelude.{◌≡◌, false, ℕ, get_or};
ghost use Rattle.model.specs.Area.{reading};
ghost use Rattle.records.specs.Records.{Decides};
ghost use Rattle.model.specs.declared.Entry.TheVariants.{Stop};
ghost use Rattle.model.specs.Stations.{is_continuous};
ghost use Rattle.replaying.specs.Replaying.{Ready, replayed, Reached, tried, asked_lot};
ghost use Rattle.replay.specs.Standing.{standing_of, Headed, HeaderFits};

use model::sizes::AREA_LENGTH;
use model::{Figures, HeardLot, Plan, sizes};
use rules::plan;
use rules::refusing::Refusal;

// What the area of an opened stream says: its plan, and how many records stand. The figures are those before the newest records that a call
// sets apart, and those now where it sets none apart.
// Kept: without a ghost field: the one function that makes a Standing promises `standing_of`, which says more than a field would.
#[derive(Clone, Copy)]
pub struct Standing {
    pub plan: Plan,
    pub figures: Figures,
    pub count: usize,
}

// The figures after more of an area's records, or those before the first that could not stand: a loop for each plan, which brings the
// figures up to date entry after entry.
// Kept: a match on the kind, here and in the two below: it is read from the area, and a `dyn` would be made by the same match.
#[tactic(auto, using(model::proofs::Allowed::third_kind))]
pub fn replay(
    area: &[u8; AREA_LENGTH],
    plan: Plan,
    figures: Figures,
    from: usize,
    to: usize,
) -> Result<Figures, Figures>
    requires { Ready plan area.now figures from to }
    ensures { result ≡ replayed plan area.now to }
{
    match plan.kind {
        plan::CREDIT => replaying::replay::<replay_credit::Carried>(area, plan, figures, from, to),
        plan::LEVEL => replaying::replay::<replay_level::Carried>(area, plan, figures, from, to),
        _ => replaying::replay::<replay_continuous::Place>(area, plan, figures, from, to),
    }
}

// A lot more on a stream's figures, by the step of its plan: the figures after it, where it could stand.
#[tactic(auto, using(model::proofs::Allowed::plan_range), unfolding(model::specs::Stations::is_continuous))]
pub fn enter_lot(plan: Plan, figures: Figures, lot: HeardLot) -> Option<Figures>
    requires { Reached plan figures × (is_continuous plan ≡ false) }
    ensures { result ≡ tried plan figures (asked_lot plan figures lot.label lot.size.0 lot.wrong lot.wrong_in_all) }
{
    match plan.kind {
        plan::CREDIT => replaying::enter_lot::<replay_credit::Carried>(plan, figures, lot),
        _ => replaying::enter_lot::<replay_level::Carried>(plan, figures, lot),
    }
}

// The same of a stop. Runs and blocks are entered on continuous streams alone (`replay_continuous::enter_run` and `enter_block`).
#[tactic(auto, using(model::proofs::Allowed::third_kind))]
pub fn enter_stop(plan: Plan, figures: Figures, why: u32, days: u32) -> Option<Figures>
    requires { Reached plan figures }
    ensures { result ≡ tried plan figures (Stop why days) }
{
    match plan.kind {
        plan::CREDIT => replaying::enter_stop::<replay_credit::Carried>(plan, figures, why, days),
        plan::LEVEL => replaying::enter_stop::<replay_level::Carried>(plan, figures, why, days),
        _ => replaying::enter_stop::<replay_continuous::Place>(plan, figures, why, days),
    }
}

// What an area says, with the figures before so many of its newest records. Of itself it gives the refusals of every call but Open: 3 where
// no calls could have left it, 6 where the stream is not opened.
// Speed: a function of its own, so that the look for refusals 1 and 2 is part of each call; else a call that they refuse takes 1.3 times as
// long.
#[inline(never)]
pub fn read(area: &[u8; AREA_LENGTH], newest: usize) -> Result<Standing, Refusal>
    ensures { result ≡ standing_of newest (reading area.now) }
{
    if area[0] == 0 {
        return Err(refusal_of(area));
    }
    read_opened(area, newest)
}

// The refusal of an area whose first byte is 0: the stream is unopened where all others are 0 too.
#[tactic(auto, using(crate::proofs::Readings::sayings))]
fn refusal_of(area: &[u8; AREA_LENGTH]) -> Refusal
    requires { get_or area.now 0 0 ≡ 0 }
    ensures { (newest : ℕ) → Err result ≡ standing_of newest (reading area.now) }
{
    if records::is_zero_from(area, 0) {
        return Refusal::Unopened;
    }
    Refusal::Unsound
}

// What an area says whose first byte is not 0.
#[tactic(auto, using(crate::proofs::Readings::sayings))]
fn read_opened(area: &[u8; AREA_LENGTH], newest: usize) -> Result<Standing, Refusal>
    requires { get_or area.now 0 0 ≡ 0 → ⊥ }
    ensures { result ≡ standing_of newest (reading area.now) }
{
    let plan = records::get_plan(area);
    if !plan::is_valid(plan) {
        return Err(Refusal::Unsound);
    }
    let count = records::get_count(area);
    if sizes::MOST_RECORDS < count {
        return Err(Refusal::Unsound);
    }
    read_records(area, plan, count, newest)
}

// What an area says whose header has a valid plan and a count that fits. The records are replayed once: those before the newest, then
// the newest.
#[tactic(auto, using(crate::proofs::Readings::sayings))]
fn read_records(
    area: &[u8; AREA_LENGTH],
    plan: Plan,
    count: usize,
    newest: usize,
) -> Result<Standing, Refusal>
    requires { Headed area.now plan count }
    ensures { result ≡ standing_of newest (reading area.now) }
{
    let first = count.saturating_sub(newest);
    let Ok(figures) = replay(area, plan, plan::started(plan), 0, first) else {
        return Err(Refusal::Unsound);
    };
    if !records::is_zero_from(area, sizes::HEADER_LENGTH + sizes::RECORD_LENGTH * count) {
        return Err(Refusal::Unsound);
    }
    if !fits_header(area, plan, figures, first, count) {
        return Err(Refusal::Unsound);
    }
    Ok(Standing {
        plan,
        figures,
        count,
    })
}

// Do the newest records stand, and is the header the one with the figures after them?
// Speed: most calls set none apart, and are spared a second replay; with it a call on a short stream takes up to 1.35 times as long.
#[tactic(auto, using(crate::proofs::Readings::sayings))]
fn fits_header(
    area: &[u8; AREA_LENGTH],
    plan: Plan,
    figures: Figures,
    from: usize,
    to: usize,
) -> bool
    requires { Ready plan area.now figures from to }
    ensures { Decides result (HeaderFits plan area.now to) }
{
    if from == to {
        return records::has_header(area, plan, to, figures);
    }
    match replay(area, plan, figures, from, to) {
        Ok(all) => records::has_header(area, plan, to, all),
        Err(_) => false,
    }
}
