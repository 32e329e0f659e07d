// The limits, and the criteria. The products that the k criterion compares are those of its definition without one factor n, so that they
// fit 64 bits.
ghost use Rattle.std.specs.Prelude.{◌≡◌, true, ◌&&◌, ◌≤◌, ℤ, nat_abs};
ghost use Rattle.std.specs.Int.Signed.{lt_z};
ghost use Rattle.measuring.specs.Fractions.{ratio};
ghost use Rattle.measuring.specs.Criteria.{meets_k, meets_f};
ghost use Rattle.measuring.specs.Judging.{
  largest_level,
  largest_k,
  largest_f,
  limit_in_range,
  is_below,
  is_above,
  is_outside,
  outside as outside_of,
  to_upper,
  to_lower,
  f_met,
};
ghost use Rattle.measuring.specs.Working.{largest_distance, k_met_at};

use crate::Specification;
use crate::ranges::Checked;
use crate::samples::{Measurements, Sample};
use std::marker::Model;

// 100 squared, since k is in hundredths.
const K_SCALE: u64 = 10000;

// 1,000 squared, since F is in thousandths.
const F_SCALE: u64 = 1000000;

// How far the mean lies inside a limit, times n; 0 for an absent limit. It is never larger than 800,000.
#[derive(Clone, Copy)]
pub(crate) struct Distance(pub(crate) i32);

impl Model for Distance {
    ghost Value = { ℤ };

    ghost view = { λ d. d.0 };

    ghost invariant = { λ d. nat_abs d.0 ≤ largest_distance };

    ghost inverse = { λ z. record { 0 = z } };
}

impl Checked {
    // How many measurements lie outside the limits.
    // Speed: counted in 32 bits, so that they are compared side by side; by `filter` and `count` it takes twice as long.
    #[tactic(auto, unfolding(crate::specs::Judging::outside))]
    pub(crate) fn outside(self, values: &Measurements) -> u32
        ensures { result ≡ outside_of self.lower self.upper values.now }
    {
        let Specification { lower, upper, .. } = self.given;
        let mut count: u32 = 0;
        for x in values.values {
            if is_outside(lower, upper, *x) {
                count += 1;
            }
        }
        count
    }

    // n U - Σx, 0 for an absent limit.
    pub(crate) fn to_upper(self, sample: Sample) -> Distance
        ensures { result ≡ to_upper self.upper sample }
    {
        to_upper(self.given.upper, sample)
    }

    // Σx - n L, 0 for an absent limit: n L - Σx with the other sign.
    pub(crate) fn to_lower(self, sample: Sample) -> Distance
        ensures { result ≡ to_lower self.lower sample }
    {
        let turned = to_upper(self.given.lower, sample);
        Distance(0 - turned.0)
    }

    // Whether every given limit meets k, at the distances of the mean times n.
    pub(crate) fn is_k_met(self, sample: Sample, to_lower: Distance, to_upper: Distance) -> bool
        ensures { result ≡ (k_met_at self.lower self.k sample to_lower && k_met_at self.upper self.k sample to_upper) }
    {
        let Specification {
            lower,
            upper,
            k,
            ..
        } = self.given;
        is_k_met_at(lower, k, sample, to_lower) & is_k_met_at(upper, k, sample, to_upper)
    }

    // Whether F is met, also where it is absent. It comes only with both limits (19).
    #[tactic(auto, unfolding(crate::specs::Judging::f_met))]
    pub(crate) fn is_f_met(self, sample: Sample) -> bool
        ensures { result ≡ f_met self.lower self.upper self.f sample }
    {
        let Specification {
            lower,
            upper,
            f,
            ..
        } = self.given;
        match (lower, upper, f) {
            (_, _, None) => true,
            (Some(l), Some(u), Some(f)) => meets_f(f, l, u, sample),
            _ => false,
        }
    }
}

// What `Checked::to_upper` gives, of whichever limit.
#[tactic(auto, unfolding(crate::specs::Judging::to_upper))]
fn to_upper(upper: Option<i32>, sample: Sample) -> Distance
    requires { limit_in_range upper ≡ true }
    ensures { result ≡ to_upper upper sample }
{
    let Some(u) = upper else {
        return Distance(0);
    };
    Distance(sample.count as i32 * u - sample.sum)
}

#[tactic(auto, unfolding(crate::specs::Judging::is_outside, crate::specs::Judging::is_below, crate::specs::Judging::is_above))]
fn is_outside(lower: Option<i32>, upper: Option<i32>, x: i32) -> bool
    ensures { result ≡ is_outside lower upper x }
{
    lower.is_some_and(|l| x < l) | upper.is_some_and(|u| u < x)
}

// Whether a limit, where it is given, meets k at this distance, which is n times that of the mean.
#[tactic(auto, unfolding(crate::specs::Working::k_met_at))]
fn is_k_met_at(limit: Option<i32>, k: u32, sample: Sample, distance: Distance) -> bool
    requires { k ≤ largest_k }
    ensures { result ≡ k_met_at limit k sample distance }
{
    limit.is_none() || meets_k(k, sample, distance)
}

// 5.1.2.3.4 a) and b): the distance is not negative, and its square is at least k² s².
fn meets_k(k: u32, sample: Sample, distance: Distance) -> bool
    requires { k ≤ largest_k }
    ensures { result ≡ meets_k k sample (ratio distance sample.count) }
{
    let distance = distance.0;
    if distance < 0 {
        return false;
    }
    let n = sample.count as u64;
    let k = k as u64;
    let distance = distance as u64;
    k * k * sample.spread as u64 * n <= distance * distance * (n - 1) * K_SCALE
}

// 5.1.2.3.4 c): s² is at most F² (U - L)².
fn meets_f(f: u32, lower: i32, upper: i32, sample: Sample) -> bool
    requires f { f ≤ largest_f }
    requires limits { (nat_abs lower ≤ largest_level) × (nat_abs upper ≤ largest_level) × (lt_z lower upper ≡ true) }
    ensures { result ≡ meets_f f lower upper sample }
{
    let n = sample.count as u64;
    let f = f as u64;
    let width = (upper - lower) as u64;
    sample.spread as u64 * F_SCALE <= f * f * (width * width) * (n * (n - 1))
}
