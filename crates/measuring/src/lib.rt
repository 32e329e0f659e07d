// Sampling by variables: a sample of measured levels, judged by the k and F criteria of document 000 (ISO 28594), 5.1.2.3.4. Nothing here
// knows of the store: the measurements are lent, and the answer is a struct.
#![tactic(auto)]

ghost use Rattle.std.specs.Prelude.{◌≡◌};
ghost use Rattle.measuring.specs.Judging.{refused, judged, judgement};
ghost use Rattle.measuring.specs.Working.{refusal_number};

pub mod claims;
pub mod criteria;
pub mod ranges;
pub mod samples;

use ranges::{Judgeable, Refusal};

// What a sample is judged by: the limits L and U, k in hundredths, and F in thousandths. Only a double-sided specification has an F.
#[derive(Clone, Copy)]
pub struct Specification {
    pub lower: Option<i32>,
    pub upper: Option<i32>,
    pub k: u32,
    pub f: Option<u32>,
}

// What a judgement gives, laid out as C lays it out: a refusal, 18 or 19, or 0; how many measurements lie outside the limits; n U - Σx and
// Σx - n L; and whether none lies outside, every given limit meets k, and F is met.
// Kept: the refusal is a number beside the answer, and no Result, because C is handed this struct (`listening_judge`).
#[repr(C)]
#[derive(Clone, Copy)]
pub struct Judgement {
    pub refusal: u32,
    pub outside: u32,
    pub to_upper: i32,
    pub to_lower: i32,
    pub none_outside: bool,
    pub k_met: bool,
    pub f_met: bool,
}

// Judges the measurements by a specification.
pub fn judge(values: &[i32], specification: Specification) -> Judgement
    ensures { result ≡ judgement values.now specification }
{
    match specification.check(values) {
        Ok(judgeable) => judgeable.judge(),
        Err(refusal) => refused_by(refusal),
    }
}

// Zeros, and no for each.
#[tactic(auto, unfolding(crate::specs::Judging::refused))]
fn refused_by(refusal: Refusal) -> Judgement
    ensures { result ≡ refused (refusal_number refusal) }
{
    Judgement {
        refusal: refusal as u32,
        outside: 0,
        to_upper: 0,
        to_lower: 0,
        none_outside: false,
        k_met: false,
        f_met: false,
    }
}

impl<'a> Judgeable<'a> {
    #[tactic(auto, using(crate::proofs::Judged::k_above, crate::proofs::Judged::k_below), unfolding(crate::specs::Judging::judged, crate::specs::Judging::k_met))]
    fn judge(&self) -> Judgement
        ensures { result ≡ judged self.now.values self.now.specification }
    {
        let specification = self.specification;
        let sample = self.values.sample();
        let outside = specification.outside(&self.values);
        let to_upper = specification.to_upper(sample);
        let to_lower = specification.to_lower(sample);
        Judgement {
            refusal: 0,
            outside,
            to_upper: to_upper.0,
            to_lower: to_lower.0,
            none_outside: outside == 0,
            k_met: specification.is_k_met(sample, to_lower, to_upper),
            f_met: specification.is_f_met(sample),
        }
    }
}
