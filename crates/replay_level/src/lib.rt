// What the replay of a level stream's records carries, and its step: paper 01, "Level lots". The step is the one home of what a level
// stream's entries do to its figures and of whether they may stand: the replay takes it for each record, a call for the entry that it is
// about to write.
// What an entry can change is carried in six numbers; `specs/Carrying.antt` has the figures that they stand for.
#![tactic(auto)]

ghost use Rattle.std.specs.Prelude.{◌≡◌};
ghost use Rattle.std.proofs.Common.{rules};
ghost use Rattle.replay_level.specs.Carrying.{figures_in, fits_sample};

use model::{Figures, HeardLot, Plan, Record};
use plans::level::LevelState;
use plans::tables::VerificationLevel;
use plans::{LotSize, level, limits};
use replaying::{Lots, Numbers, Records};
use rules::{plan, refusing};

// What an entry of a level stream can change.
// Kept: two structs: a trait over the state would have as many members as `Lots`, and only `accepted` and `above` would be common.
#[derive(Clone, Copy)]
pub struct Carried {
    state: LevelState,
    accepted: u64,
    above: u64,
}

impl Numbers for Carried {
    ghost kind = { 2 };

    ghost shown = { λ p s. figures_in s };

    ghost ranged = { λ p s. Unit {0} };

    fn of(_plan: Plan, figures: Figures) -> Carried {
        Carried {
            state: figures.level,
            accepted: figures.accepted,
            above: figures.above,
        }
    }

    // Figures foreign to the plan are zero.
    #[tactic(auto, unfolding(crate::specs::Carrying::figures_in, replaying::specs::LotStreams::lot_figures))]
    fn figures(self, _plan: Plan) -> Figures {
        Figures {
            level: self.state,
            accepted: self.accepted,
            above: self.above,
            ..plan::no_figures()
        }
    }

    #[tactic(auto, unfolding(model::specs::Calls::is_discontinued, model::specs::Stations::is_continuous, replaying::specs::LotStreams::lot_figures, crate::specs::Carrying::figures_in))]
    fn has_ended(self, _plan: Plan) -> bool {
        self.state.level == level::DISCONTINUED
    }

    // A stop moves a stream on reduced.
    #[tactic(auto, using(crate::proofs::Steps::stops))]
    fn stop(self, _plan: Plan, why: u32, days: u32) -> Option<Carried> {
        if !refusing::is_stop(why, days) {
            return None;
        }
        let state = self.state;
        let after = state.meet_stop(why, days);
        Some(Carried {
            state: after,
            ..self
        })
    }
}

impl Records for Carried {
    fn take(self, plan: Plan, read: Record) -> Option<Carried> {
        replaying::take_lot(self, plan, read)
    }
}

impl Lots for Carried {
    // A lot with nothing wrong is accepted whole, whatever the sample.
    #[tactic(auto, using(crate::proofs::Steps::steps))]
    fn good_lot(self, plan: Plan, label: u32, size: LotSize) -> Option<Carried> {
        if !refusing::may_follow(limits::LEAST_LEVEL_LOT, self.above, label, size) {
            return None;
        }
        let state = self.state;
        let after = state.judge(plan.option == 1, false);
        Some(Carried {
            state: after,
            accepted: self.accepted + size.0 as u64,
            above: label as u64 + 1,
        })
    }

    // A lot with something wrong is withheld, where refusal 13 leaves it.
    #[tactic(auto, using(crate::proofs::Steps::steps))]
    fn wrong_lot(self, plan: Plan, lot: HeardLot) -> Option<Carried> {
        if !refusing::may_follow(limits::LEAST_LEVEL_LOT, self.above, lot.label, lot.size) {
            return None;
        }
        let state = self.state;
        let vl = VerificationLevel { number: plan.a };
        if !fits_sample(vl, state.level, lot.size, lot.wrong, lot.wrong_in_all) {
            return None;
        }
        let after = state.judge(plan.option == 1, true);
        Some(Carried {
            state: after,
            above: lot.label as u64 + 1,
            ..self
        })
    }

    ghost no_continuous = { Prim.search rules };
}

// What refusal 13 leaves of a lot: as many wrong in all as in the sample, which holds them.
// Speed: the sample itself is worked out only where more is wrong than the least that any lot at this level asks for; worked out for
// each, a long stream of mixed lots takes 1.3 times as long.
#[tactic(auto, using(crate::proofs::Samples::samples))]
fn fits_sample(
    vl: VerificationLevel,
    severity: u32,
    size: LotSize,
    wrong: u32,
    wrong_in_all: u32,
) -> bool
    ensures { result ≡ fits_sample vl.number severity size.0 wrong wrong_in_all }
{
    if wrong_in_all != wrong {
        return false;
    }
    if size.0 < wrong {
        return false;
    }
    if wrong <= vl.least_sample().0 {
        return true;
    }
    wrong <= vl.sample_size(severity, size).0
}
