// What the replay of a credit stream's records carries, and its step: paper 01, "Credit lots". The step is the one home of what a credit
// stream's entries do to its figures and of whether they may stand: the replay takes it for each record, a call for the entry that it is
// about to write. What an entry can change is carried in three numbers; `specs/Carrying.antt` has the figures that they stand for.
// Speed: the loop keeps the numbers in registers; with a step over the whole figures a record took 3 to 11 times as long.
#![tactic(auto)]

ghost use Rattle.std.proofs.Common.{rules};
ghost use Rattle.replay_credit.specs.Carrying.{figures_in};

use model::{Figures, HeardLot, Plan, Record};
use plans::credit::Credit;
use plans::{LotSize, limits, verdict};
use replaying::{Lots, Numbers, Records};
use rules::{plan, refusing};

// What an entry of a credit stream can change.
// Kept: two structs: a trait over the state would have as many members as `Lots`, and only `accepted` and `above` would be common.
#[derive(Clone, Copy)]
pub struct Carried {
    credit: Credit,
    accepted: u64,
    above: u64,
}

impl Numbers for Carried {
    ghost kind = { 1 };

    ghost shown = { λ p s. figures_in s };

    ghost ranged = { λ p s. Unit {0} };

    fn of(_plan: Plan, figures: Figures) -> Carried {
        Carried {
            credit: figures.credit,
            accepted: figures.accepted,
            above: figures.above,
        }
    }

    // Figures foreign to the plan are zero.
    #[tactic(auto, unfolding(crate::specs::Carrying::figures_in, replaying::specs::LotStreams::lot_figures, model::specs::Figuring::no_level))]
    fn figures(self, _plan: Plan) -> Figures {
        Figures {
            credit: self.credit,
            accepted: self.accepted,
            above: self.above,
            ..plan::no_figures()
        }
    }

    // A credit stream is never discontinued.
    #[tactic(auto, using(crate::proofs::Steps::goes_on_lem))]
    fn has_ended(self, _plan: Plan) -> bool {
        false
    }

    // Paper 01, "Calls", Stop: on credit streams it is entered without effect.
    #[tactic(auto, using(crate::proofs::Steps::stops))]
    fn stop(self, _plan: Plan, why: u32, days: u32) -> Option<Carried> {
        if refusing::is_stop(why, days) {
            return Some(self);
        }
        None
    }
}

impl Records for Carried {
    fn take(self, plan: Plan, read: Record) -> Option<Carried> {
        replaying::take_lot(self, plan, read)
    }
}

impl Lots for Carried {
    // A lot with nothing wrong is accepted whole, whatever the sample.
    #[tactic(auto, using(crate::proofs::Steps::steps))]
    fn good_lot(self, _plan: Plan, label: u32, size: LotSize) -> Option<Carried> {
        if !refusing::may_follow(limits::LEAST_LOT, self.above, label, size) {
            return None;
        }
        Some(Carried {
            credit: self.credit.after(size, 0),
            accepted: self.accepted + size.0 as u64,
            above: label as u64 + 1,
        })
    }

    // A lot with something wrong: only of such a one the sample is worked out, a division.
    // Speed: where the sample has none wrong, which `do_counts_agree` refuses too, it fails before that; without this test a long stream of
    // mixed lots takes 1.12 times as long.
    #[tactic(auto, using(crate::proofs::Steps::steps))]
    fn wrong_lot(self, plan: Plan, lot: HeardLot) -> Option<Carried> {
        if !refusing::may_follow(limits::LEAST_LOT, self.above, lot.label, lot.size) {
            return None;
        }
        if lot.wrong == 0 {
            return None;
        }
        let credit = self.credit;
        let sample = credit.sample(plan.ceiling, lot.size, plan.a);
        let verdict = credit.verdict(plan.option == 1, lot.wrong);
        if !refusing::do_counts_agree(verdict, lot.size, sample, lot.wrong, lot.wrong_in_all) {
            return None;
        }
        Some(Carried {
            credit: credit.after(lot.size, lot.wrong),
            accepted: self.accepted
                + verdict::accepted_of(verdict, lot.size, lot.wrong_in_all) as u64,
            above: lot.label as u64 + 1,
        })
    }

    ghost no_continuous = { Prim.search rules };
}
