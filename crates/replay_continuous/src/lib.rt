// What the replay of a continuous stream's records carries, and its step: paper 01, "Continuous". The step is the one home of whether a
// continuous stream's entries may stand, and what they do is `plans`' own (`Continuous::run`, `block` and `stop`): the replay takes it for
// each record, a call for the entry that it is about to write.
//
// It does not carry the state as the area has it. One number, left, is what is still to be screened until clearance, i - c, and 0 in
// sampling: so it says the phase and which run fits.
// Speed: what changes stays in three registers, and of `plans`' functions one subtraction is left; with the state itself a long stream
// takes twice as long.
#![tactic(auto)]

ghost use Rattle.std.specs.Prelude.{◌≡◌, ◌≤◌};
ghost use Rattle.model.specs.declared.Entry.TheVariants.{Run, Block};
ghost use Rattle.model.specs.Records.{no_recording};
ghost use Rattle.replaying.specs.Replaying.{Reached, tried};
ghost use Rattle.replay_continuous.specs.Places.{
  left_of,
  state_of,
  figures_in,
  place_of,
  OnContinuous,
  Gives,
  fits_run,
  flag_of,
};

use model::{Figures, Plan, Record};
use plans::continuous::Continuous;
use plans::{continuous, limits};
use replaying::{Numbers, Records};
use rules::{plan, refusing};

// What an entry of a continuous stream can change: what is left to be screened, the tail, and how many are accepted.
#[derive(Clone, Copy)]
pub struct Place {
    left: u32,
    tail: u16,
    accepted: u64,
}

// A run more on a continuous stream's figures, as a call enters it: the figures after it, none where it could not stand.
// Kept: wrong as a number, as `Run` and `Block` have it: with a bool the contract would say `flag_of` of it, and each call show that.
pub fn enter_run(plan: Plan, figures: Figures, right: u32, wrong: u32) -> Option<Figures>
    requires { Reached plan figures × (plan.kind ≡ 3) × (wrong ≤ 1) }
    ensures { result ≡ tried plan figures (Run right wrong no_recording) }
{
    let before = replaying::before_call::<Place>(plan, figures)?;
    let after = before.step_run(plan, right, wrong == 1)?;
    Some(after.figures(plan))
}

// The same of a block.
// Kept: beside `enter_run`, of which it has the order alone: the step and the entry are its own.
pub fn enter_block(plan: Plan, figures: Figures, heard: u32, wrong: u32) -> Option<Figures>
    requires { Reached plan figures × (plan.kind ≡ 3) × (wrong ≤ 1) }
    ensures { result ≡ tried plan figures (Block heard wrong no_recording) }
{
    let before = replaying::before_call::<Place>(plan, figures)?;
    let after = before.step_block(plan, heard, wrong == 1)?;
    Some(after.figures(plan))
}

impl Numbers for Place {
    ghost kind = { 3 };

    ghost shown = { λ p s. figures_in p.a s };

    ghost ranged = { λ p s. s.left ≤ p.a };

    fn of(plan: Plan, figures: Figures) -> Place {
        Place::after(plan.a, figures.continuous, figures.accepted)
    }

    // Credit, level and label are foreign to a continuous stream.
    #[tactic(auto, unfolding(crate::specs::Places::figures_in, model::specs::Figuring::no_level))]
    fn figures(self, plan: Plan) -> Figures {
        let continuous = self.state(plan.a);
        Figures {
            continuous,
            accepted: self.accepted,
            ..plan::no_figures()
        }
    }

    // A continuous stream is never discontinued.
    #[tactic(auto, unfolding(model::specs::Calls::is_discontinued, crate::specs::Places::figures_in, model::specs::Figuring::no_level))]
    fn has_ended(self, _plan: Plan) -> bool {
        false
    }

    #[tactic(auto, using(crate::proofs::Steps::stops))]
    fn stop(self, plan: Plan, why: u32, days: u32) -> Option<Place> {
        if !refusing::is_stop(why, days) {
            return None;
        }
        let state = self.state(plan.a);
        let after = state.stop(why, days);
        Some(Place::after(plan.a, after, self.accepted))
    }
}

impl Records for Place {
    // With a recording number a record can only be a run's or block's (paper 02, card 1).
    // Speed: the phase is looked at first, so that a block's head is not compared with a run's. Whether a wrong run or block fits is asked
    // before its head: so the compiler keeps this order, in which a right one costs one comparison. By the heads alone a long stream in
    // sampling takes 1.25 times as long.
    #[tactic(auto, using(crate::proofs::Steps::takes))]
    fn take(self, plan: Plan, read: Record) -> Option<Place> {
        if read.recording.number == 0 {
            return replaying::take_stop(self, plan, read);
        }
        if replaying::has_more(read) {
            return None;
        }
        let head = replaying::head_of(read);
        if self.left == 0 {
            if head == replaying::BLOCK {
                return self.step_block(plan, read.a, false);
            }
            if let Some(after) = self.step_block(plan, read.a, true) {
                if head == replaying::BLOCK_WRONG {
                    return Some(after);
                }
            }
            return None;
        }
        if head == replaying::RUN {
            return self.step_run(plan, read.a, false);
        }
        if let Some(after) = self.step_run(plan, read.a, true) {
            if head == replaying::RUN_WRONG {
                return Some(after);
            }
        }
        None
    }
}

// Kept: `after` and `state` in place of From: both need the clearance number.
impl Place {
    // A run of right detections, then a wrong one if wrong.
    #[tactic(auto, using(crate::proofs::Steps::runs))]
    fn step_run(self, plan: Plan, right: u32, wrong: bool) -> Option<Place>
        requires { OnContinuous plan self }
        ensures { Gives plan self result (Run right (flag_of wrong) no_recording) }
    {
        if !fits_run(self.left, right, wrong) {
            return None;
        }
        let state = self.state(plan.a);
        let after = state.run(plan.a, right, wrong);
        Some(Place::after(plan.a, after, self.accepted + right as u64))
    }

    // A block of which one detection was heard.
    #[tactic(auto, using(crate::proofs::Steps::block_steps))]
    fn step_block(self, plan: Plan, heard: u32, wrong: bool) -> Option<Place>
        requires { OnContinuous plan self }
        ensures { Gives plan self result (Block heard (flag_of wrong) no_recording) }
    {
        if self.left != 0 {
            return None;
        }
        if !refusing::is_in_block(plan.b, heard) {
            return None;
        }
        let state = self.state(plan.a);
        let gives = state.block(plan.b, heard, wrong);
        let accepted = self.accepted + gives.accepted as u64;
        Some(Place::after(plan.a, gives.state, accepted))
    }

    // The place that a state leaves, with so many accepted.
    fn after(clearance: u32, state: Continuous, accepted: u64) -> Place
        requires { state.count ≤ clearance }
        ensures { result ≡ place_of clearance state accepted }
    {
        Place {
            left: left_of(clearance, state),
            tail: state.tail,
            accepted,
        }
    }

    // The state at a place.
    #[tactic(auto, unfolding(crate::specs::Places::state_of, plans::specs::Continuous::sampling))]
    fn state(self, clearance: u32) -> Continuous
        requires { self.left ≤ clearance }
        ensures { result ≡ state_of clearance self.left self.tail }
    {
        if self.left == 0 {
            return Continuous {
                count: 0,
                phase: continuous::SAMPLING,
                tail: self.tail,
            };
        }
        Continuous::screen(clearance - self.left)
    }
}

// What a state leaves to be screened.
#[tactic(auto, unfolding(crate::specs::Places::left_of, plans::specs::Continuous::is_sampling))]
fn left_of(clearance: u32, state: Continuous) -> u32
    requires { state.count ≤ clearance }
    ensures { result ≡ left_of clearance state }
{
    if state.phase == continuous::SAMPLING {
        return 0;
    }
    clearance - state.count
}

// What 14 and 15 leave of a run.
#[tactic(auto, unfolding(crate::specs::Places::fits_run))]
fn fits_run(left: u32, right: u32, wrong: bool) -> bool
    ensures { result ≡ fits_run left right wrong }
{
    if wrong {
        return right < left;
    }
    limits::within(1, left, right)
}
