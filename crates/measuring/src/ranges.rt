// Refusals 18 and 19: the ranges of card 2, and which limits go with F.
ghost use Rattle.std.specs.Prelude.{◌≡◌, MatchResult};
ghost use Rattle.measuring.specs.declared.Specification.{Specification as Given};
ghost use Rattle.measuring.specs.Judging.{is_level, are_levels, limit_in_range, f_in_range, in_range, is_specification, refused, judged, judgement};
ghost use Rattle.measuring.specs.Working.{Allowed, refusal_number};

use crate::Specification;
use crate::samples::Measurements;
use plans::limits;
use std::marker::Model;

const LEAST_SAMPLE: usize = 2;

const LARGEST_SAMPLE: usize = 100;

// Of a measurement and of a limit, on either side of 0.
const LARGEST_LEVEL: i32 = 4000;

// In hundredths.
const LARGEST_K: u32 = 1000;

// In thousandths.
const LARGEST_F: u32 = 1000;

// Why a judgement is refused, by the papers' number.
#[derive(Clone, Copy)]
pub(crate) enum Refusal {
    OutOfRange = 18,
    NoSpecification = 19,
}

// A specification that 18 and 19 leave.
#[derive(Clone, Copy)]
pub(crate) struct Checked {
    pub(crate) given: Specification,
}

impl Model for Checked {
    ghost Value = { Given };

    ghost view = { λ c. c.given };

    ghost invariant = { λ c. Allowed c.given };

    ghost inverse = { λ s. record { given = s } };
}

// Measurements and a specification that 18 and 19 leave.
#[derive(Drop)]
pub(crate) struct Judgeable<'a> {
    pub(crate) values: Measurements<'a>,
    pub(crate) specification: Checked,
}

impl Specification {
    // Tests 18, then 19.
    #[tactic(auto, using(crate::proofs::Judged::ranged, crate::proofs::Judged::allowed), unfolding(crate::specs::Judging::judgement))]
    pub(crate) fn check<'a>(self, values: &'a [i32]) -> Result<Judgeable<'a>, Refusal>
        ensures { MatchResult result
            (λ j. (j.values ≡ values.now) × (j.specification ≡ self) × (judgement values.now self ≡ judged values.now self))
            (λ r. judgement values.now self ≡ refused (refusal_number r)) }
    {
        if !self.is_in_range(values) {
            return Err(Refusal::OutOfRange);
        }
        if !self.is_specification() {
            return Err(Refusal::NoSpecification);
        }
        Ok(Judgeable {
            values: Measurements { values },
            specification: Checked { given: self },
        })
    }

    // Whether refusal 18 does not apply.
    #[tactic(auto, unfolding(crate::specs::Judging::in_range, crate::specs::Judging::limit_in_range, crate::specs::Judging::f_in_range, plans::specs::Limits::within))]
    fn is_in_range(self, values: &[i32]) -> bool
        ensures { result ≡ in_range values.now self }
    {
        (LEAST_SAMPLE..=LARGEST_SAMPLE).contains(&values.len())
            && are_levels(values)
            && self.lower.is_none_or(is_level)
            && self.upper.is_none_or(is_level)
            && limits::within(1, LARGEST_K, self.k)
            && self.f.is_none_or(|f| limits::within(1, LARGEST_F, f))
    }

    // Whether refusal 19 does not apply.
    #[tactic(auto, unfolding(crate::specs::Judging::is_specification, crate::specs::Judging::is_not_applicable))]
    fn is_specification(self) -> bool
        ensures { result ≡ is_specification self.lower self.upper self.f }
    {
        match (self.lower, self.upper) {
            (Some(l), Some(u)) => self.f.is_some() && l < u,
            (None, None) => false,
            _ => self.f.is_none(),
        }
    }
}

// Whether a level is from -4,000 to 4,000.
#[tactic(auto, unfolding(crate::specs::Judging::is_level))]
fn is_level(x: i32) -> bool
    ensures { result ≡ is_level x }
{
    (-LARGEST_LEVEL..=LARGEST_LEVEL).contains(&x)
}

// Speed: it goes to its end, so that the levels are tested side by side; `all` would leave at the first that is none.
#[tactic(auto, using(std::proofs::lemmas::List::Folds::list_all_more), unfolding(crate::specs::Judging::are_levels))]
fn are_levels(values: &[i32]) -> bool
    ensures { result ≡ are_levels values.now }
{
    let mut all = true;
    for x in values {
        all &= is_level(*x);
    }
    all
}
