// Credit lots: document 004 (ISO 28593), clause 10.
ghost use Rattle.std.specs.Prelude.{◌≡◌, ◌≤◌, ◌<◌, ◌^◌};
ghost use Rattle.plans.specs.Credit.{
  rounded_up,
  usable_credit,
  credit_sample,
  credit_verdict,
  credit_after,
  sample_dividend,
  sample_divisor,
  LeastNotBelow,
};
ghost use Rattle.plans.specs.Limits.{largest_credit, largest_lot, largest_aoql};

use crate::{LotSize, SampleSize, verdict};

// The credit K: detections accepted since a lot was last not accepted.
// Kept: its limit stands in clauses and not in the type, since `records::has_header` answers for figures with every credit.
#[derive(Clone, Copy, Default)]
pub struct Credit(pub u32);

impl Credit {
    // The sample that a lot asks for under a ceiling on the usable credit, where the AOQL is limit millionths: clause 10 a), note 1.
    #[tactic(auto, using(crate::proofs::RoundedUp::ceiling_rounds, crate::proofs::RoundedUp::credit_sample_at_least, crate::proofs::RoundedUp::credit_sample_at_most), unfolding(crate::specs::Credit::credit_sample, crate::specs::Credit::sample_dividend, crate::specs::Credit::sample_divisor))]
    pub fn sample(self, ceiling: u32, size: LotSize, limit: u32) -> SampleSize
        requires { (self.0 ≤ largest_credit) × (1 ≤ size.0) × (size.0 ≤ largest_lot) × (limit ≤ largest_aoql) }
        ensures result_value { result.0 ≡ credit_sample self.0 ceiling size.0 limit }
        ensures least { LeastNotBelow (sample_dividend size.0) (sample_divisor self.0 ceiling size.0 limit) result.0 }
        ensures range { (1 ≤ result.0) × (result.0 ≤ size.0) }
    {
        let lot = size.0 as u64;
        let usable = self.usable(ceiling);
        let dividend = lot * 1000000;
        let divisor = (usable.0 as u64 + lot) * limit as u64 + 1000000;
        SampleSize(dividend.div_ceil(divisor) as u32)
    }

    // The credit that a sample size may use, under a ceiling or, where that is 0, under none: clause 10, note 1.
    // Kept: 0 for no ceiling, since `Credit::sample` answers for every number (`usable_credit`).
    #[tactic(auto, unfolding(crate::specs::Credit::usable_credit))]
    fn usable(self, ceiling: u32) -> Credit
        ensures { result.0 ≡ usable_credit self.0 ceiling }
    {
        if ceiling == 0 {
            self
        } else {
            Credit(self.0.min(ceiling))
        }
    }

    // The verdict on a lot with so many wrong in its sample: clause 10 b) and c).
    #[tactic(auto, unfolding(crate::specs::Credit::credit_verdict))]
    pub fn verdict(self, hear_all: bool, wrong: u32) -> u32
        ensures { result ≡ credit_verdict self.0 hear_all wrong }
    {
        if wrong == 0 {
            verdict::ACCEPTED
        } else if self.0 == 0 || hear_all {
            verdict::HEARD
        } else {
            verdict::WITHHELD
        }
    }

    // The credit after a lot with so many wrong in its sample: clause 10 b) and c).
    #[tactic(auto, unfolding(crate::specs::Credit::credit_after))]
    pub fn after(self, size: LotSize, wrong: u32) -> Credit
        requires { (self.0 ≤ largest_credit) × (size.0 ≤ largest_lot) }
        ensures { result.0 ≡ credit_after self.0 size.0 wrong }
    {
        if wrong == 0 {
            Credit(self.0 + size.0)
        } else {
            Credit(0)
        }
    }
}
