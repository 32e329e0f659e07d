// What the criteria ask of a sample, summed and squared exactly.
ghost use Rattle.std.specs.Prelude.{◌≡◌, List, ℤ};
ghost use Rattle.measuring.specs.Samples.{Sample as Figures, total, squares, sample_of};
ghost use Rattle.measuring.specs.Working.{Ranged, Measured};

use std::marker::Model;

// A sample's n, Σx, and S = n Σx² - (Σx)², as large at most as measurements that refusal 18 leaves can make them.
#[derive(Clone, Copy)]
pub(crate) struct Sample {
    pub(crate) count: u32,
    pub(crate) sum: i32,
    pub(crate) spread: i64,
}

impl Model for Sample {
    ghost Value = { Figures };

    ghost view = { λ s. record { count = s.count; sum = s.sum; spread = s.spread } };

    ghost invariant = { λ s. Measured (record { count = s.count; sum = s.sum; spread = s.spread }) };

    ghost inverse = { λ s. record { count = s.count; sum = s.sum; spread = s.spread } };
}

// Measurements that refusal 18 leaves: 2 to 100 levels.
#[derive(Drop)]
pub(crate) struct Measurements<'a> {
    pub(crate) values: &'a [i32],
}

impl<'a> Model for Measurements<'a> {
    ghost Value = { List ℤ };

    ghost view = { λ m. m.values.now };

    ghost invariant = { λ m. Ranged m.values.now };
}

impl<'a> Measurements<'a> {
    // n, Σx and S.
    pub(crate) fn sample(&self) -> Sample
        ensures { result ≡ sample_of self.now }
    {
        let (sum, squares) = sums(self.values);
        let total = i64::from(sum);
        let spread = self.values.len() as i64 * squares - total * total;
        Sample {
            count: self.values.len() as u32,
            sum,
            spread,
        }
    }
}

// Σx and Σx².
fn sums(values: &[i32]) -> (i32, i64)
    requires { Ranged values.now }
    ensures sum { result.0 ≡ total values.now }
    ensures squares { result.1 ≡ squares values.now }
{
    let mut sum: i32 = 0;
    let mut squares: i64 = 0;
    for x in values {
        sum += *x;
        let x = i64::from(*x);
        squares += x * x;
    }
    (sum, squares)
}
