// Reading an area record after record: what each record has to be, and the replay of them, once for the numbers of any plan. The numbers
// and their steps are in a crate for each plan.
#![tactic(auto)]

ghost use Rattle.std.specs.Prelude.{◌≡◌, MatchOption, ℕ, true, false, not, ◌+◌, ◌<◌, ◌≤◌, length};
ghost use Rattle.little.specs.Little.{part};
ghost use Rattle.model.specs.declared.Plan.{Plan};
ghost use Rattle.model.specs.declared.Figures.{Figures};
ghost use Rattle.model.specs.Sizes.{record_length};
ghost use Rattle.model.specs.declared.Entry.{Entry};
ghost use Rattle.model.specs.declared.Entry.TheVariants.{Stop};
ghost use Rattle.model.specs.Stations.{is_continuous};
ghost use Rattle.model.specs.Calls.{is_discontinued};
ghost use Rattle.model.specs.Records.{record_in};
ghost use Rattle.replaying.specs.Replaying.{
  head_of,
  one_number,
  unrecorded,
  faultless,
  why_of,
  entered,
  tried,
  asked_lot,
  Left,
  Reached,
  On,
  Ready,
  replayed,
  GoesOn,
  Tells,
  Brings,
};

use model::{Figures, HeardLot, Plan, Record, sizes};
use plans::{LotSize, stops};

// What the replay of a plan carries in place of the figures: the few numbers that an entry of it can change, and the steps on them.
// Kept: plan and numbers (`On`, `GoesOn`) apart: tried as a struct with ghost facts, and the proof of an impl that takes it did not close.
pub trait Numbers: Copy {
    // the kind of the plans whose streams are replayed so
    // Kept: that a plan is of it stands in `requires`: `Plan` holds every number (`listening::open`), so a kind is no type.
    ghost kind: { ℕ };

    // the figures that the numbers stand for
    ghost shown: { Plan → Self → Figures };

    // the range that the numbers keep
    ghost ranged: { Plan → Self → Type 0 };

    // The numbers of figures.
    fn of(plan: Plan, figures: Figures) -> Self
        requires { (plan.kind ≡ kind) × Left plan figures }
        ensures { (shown plan result ≡ figures) × ranged plan result };

    // The figures of numbers.
    fn figures(self, plan: Plan) -> Figures
        requires { ranged plan self }
        ensures { result ≡ shown plan self };

    // Is the stream discontinued? It then takes no entry.
    fn has_ended(self, plan: Plan) -> bool
        requires { plan.kind ≡ kind }
        ensures { (result ≡ is_discontinued (shown plan self)) × (result ≡ true → is_continuous plan ≡ false) };

    // The numbers after a stop, none where it could not stand.
    fn stop(self, plan: Plan, why: u32, days: u32) -> Option<Self>
        requires { GoesOn kind (shown plan) (ranged plan) plan self }
        ensures { Tells (shown plan) (ranged plan) result (tried plan (shown plan self) (Stop why days)) };
}

// The same after a lot, on a stream for lots.
pub trait Lots: Numbers {
    // One with nothing wrong.
    fn good_lot(self, plan: Plan, label: u32, size: LotSize) -> Option<Self>
        requires { GoesOn Self.kind (Self.shown plan) (Self.ranged plan) plan self }
        ensures { Tells (Self.shown plan) (Self.ranged plan) result (tried plan (Self.shown plan self) (asked_lot plan (Self.shown plan self) label size.0 0 0)) };

    // One with something wrong.
    fn wrong_lot(self, plan: Plan, lot: HeardLot) -> Option<Self>
        requires { GoesOn Self.kind (Self.shown plan) (Self.ranged plan) plan self × ((lot.wrong ≡ 0) × (lot.wrong_in_all ≡ 0) → ⊥) }
        ensures { Tells (Self.shown plan) (Self.ranged plan) result (tried plan (Self.shown plan self) (asked_lot plan (Self.shown plan self) lot.label lot.size.0 lot.wrong lot.wrong_in_all)) };

    // no continuous plan is for lots
    ghost no_continuous: { Self.kind ≡ 3 → ⊥ };
}

// The same after a record: the step of the entry that it holds.
pub trait Records: Numbers {
    fn take(self, plan: Plan, read: Record) -> Option<Self>
        requires { GoesOn Self.kind (Self.shown plan) (Self.ranged plan) plan self }
        ensures { Tells (Self.shown plan) (Self.ranged plan) result (entered plan (Self.shown plan self) 0 read) };
}

// The figures after more of the records of a stream, brought up to date entry after entry; or those before the first that could not stand.
// Kept: five parameters with `Ready`: a struct of them would be made by two callers and opened by this one loop.
// Speed: for each plan a function of its own, with the registers for itself; inlined beside the loops of the other plans, a call on a long
// stream takes up to 1.25 times as long on level plans and 1.8 times on continuous ones.
#[inline(never)]
pub fn replay<N: Records>(
    area: &[u8; sizes::AREA_LENGTH],
    plan: Plan,
    figures: Figures,
    from: usize,
    to: usize,
) -> Result<Figures, Figures>
    requires { Ready plan area.now figures from to × (plan.kind ≡ N.kind) }
    ensures { result ≡ replayed plan area.now to }
{
    let mut numbers = N::of(plan, figures);
    for i in from..to {
        let at = sizes::HEADER_LENGTH + sizes::RECORD_LENGTH * i;
        if !bring(&mut numbers, area, plan, at) {
            return Err(numbers.figures(plan));
        }
    }
    Ok(numbers.figures(plan))
}

// Brings the numbers up to date with the record at an offset; answers whether it could stand. The numbers are lent, the form that paper 01
// names, and the step is by value.
// Kept: a bool beside the lent numbers (paper 01's form); `at + record_length ≤ length` is asked, since an index would ask 'below 128'.
fn bring<N: Records>(
    numbers: &mut N,
    area: &[u8; sizes::AREA_LENGTH],
    plan: Plan,
    at: usize,
) -> bool
    requires { On N.kind (N.shown plan) (N.ranged plan) plan numbers.old × (at + record_length ≤ length area.now) }
    ensures { Brings (N.shown plan) (N.ranged plan) result numbers.old numbers.new (entered plan (N.shown plan numbers.old) 0 (record_in (part at record_length area.now))) }
{
    let Some(after) = next(*numbers, area, plan, at) else {
        return false;
    };
    *numbers = after;
    true
}

fn next<N: Records>(numbers: N, area: &[u8; sizes::AREA_LENGTH], plan: Plan, at: usize) -> Option<N>
    requires { On N.kind (N.shown plan) (N.ranged plan) plan numbers × (at + record_length ≤ length area.now) }
    ensures { Tells (N.shown plan) (N.ranged plan) result (entered plan (N.shown plan numbers) 0 (record_in (part at record_length area.now))) }
{
    if numbers.has_ended(plan) {
        return None;
    }
    numbers.take(plan, records::get_record_at(area, at))
}

// A lot more on a stream's figures, as a call enters it: the figures after it, none where it could not stand.
// Kept: `Reached` in `requires`: a `Standing` does not have it, since 128 records may stand; it is known only behind refusal 9.
pub fn enter_lot<N: Lots>(plan: Plan, figures: Figures, lot: HeardLot) -> Option<Figures>
    requires { Reached plan figures × (plan.kind ≡ N.kind) }
    ensures { result ≡ tried plan figures (asked_lot plan figures lot.label lot.size.0 lot.wrong lot.wrong_in_all) }
{
    let before = before_call::<N>(plan, figures)?;
    let after = heard_lot(before, plan, lot)?;
    Some(after.figures(plan))
}

// The same of a stop.
// Kept: why and days apart, as a run's and a block's two numbers are: a struct of them would be made for each call and opened in the step.
pub fn enter_stop<N: Numbers>(plan: Plan, figures: Figures, why: u32, days: u32) -> Option<Figures>
    requires { Reached plan figures × (plan.kind ≡ N.kind) }
    ensures { result ≡ tried plan figures (Stop why days) }
{
    let before = before_call::<N>(plan, figures)?;
    let after = before.stop(plan, why, days)?;
    Some(after.figures(plan))
}

// The numbers that an entry of a call is entered on; none where the stream takes no entry.
pub fn before_call<N: Numbers>(plan: Plan, figures: Figures) -> Option<N>
    requires { Reached plan figures × (plan.kind ≡ N.kind) }
    ensures { MatchOption result ((e : Entry) → tried plan figures e ≡ None) (λ n. GoesOn N.kind (N.shown plan) (N.ranged plan) plan n × (N.shown plan n ≡ figures)) }
{
    let begun = N::of(plan, figures);
    if begun.has_ended(plan) {
        return None;
    }
    Some(begun)
}

fn heard_lot<N: Lots>(numbers: N, plan: Plan, lot: HeardLot) -> Option<N>
    requires { GoesOn N.kind (N.shown plan) (N.ranged plan) plan numbers }
    ensures { Tells (N.shown plan) (N.ranged plan) result (tried plan (N.shown plan numbers) (asked_lot plan (N.shown plan numbers) lot.label lot.size.0 lot.wrong lot.wrong_in_all)) }
{
    if lot.wrong == 0 {
        if lot.wrong_in_all == 0 {
            return numbers.good_lot(plan, lot.label, lot.size);
        }
    }
    numbers.wrong_lot(plan, lot)
}

// What a record without a recording number does to the numbers: it can only be a stop's (paper 02, card 1).
#[tactic(auto, using(crate::proofs::LotStreams::stop_entered))]
pub fn take_stop<N: Numbers>(numbers: N, plan: Plan, read: Record) -> Option<N>
    requires { GoesOn N.kind (N.shown plan) (N.ranged plan) plan numbers × (read.recording.number ≡ 0) }
    ensures { Tells (N.shown plan) (N.ranged plan) result (entered plan (N.shown plan numbers) 0 read) }
{
    let why = why_of(read)?;
    numbers.stop(plan, why, read.a)
}

// What a record does to the numbers of a stream for lots: with a recording number it can only be a lot's (paper 02, card 1).
// Speed: a lot without fault is known by one comparison; taken by `heard_lot`, a long stream of good credit lots takes up to 1.2 times as
// long, and a long stream of level lots, where that then has two callers and is not inlined, some twenty times.
#[tactic(auto, using(crate::proofs::LotStreams::lot_records))]
pub fn take_lot<N: Lots>(numbers: N, plan: Plan, read: Record) -> Option<N>
    requires { GoesOn N.kind (N.shown plan) (N.ranged plan) plan numbers }
    ensures { Tells (N.shown plan) (N.ranged plan) result (entered plan (N.shown plan numbers) 0 read) }
{
    if read.recording.number == 0 {
        return take_stop(numbers, plan, read);
    }
    if is_faultless(read) {
        return numbers.good_lot(plan, read.a, LotSize(read.b));
    }
    if head_of(read) != LOT {
        return None;
    }
    let lot = HeardLot {
        label: read.a,
        size: LotSize(read.b),
        wrong: read.c,
        wrong_in_all: read.d,
    };
    numbers.wrong_lot(plan, lot)
}

// The heads of the records that can stand: the first four bytes as one number, kind + 256 × flag.
// Kept: numbers and no enum, which is no plainer: bytes hold any number, and an enum would be made of it by these same comparisons.
pub const LOT: u32 = records::LOT as u32;

pub const RUN: u32 = records::RUN as u32;

pub const RUN_WRONG: u32 = RUN + 256;

pub const BLOCK: u32 = records::BLOCK as u32;

pub const BLOCK_WRONG: u32 = BLOCK + 256;

// A stop of why 1, and one of why 2.
pub const PAUSE: u32 = records::STOP as u32 + 256;

pub const CHANGE: u32 = records::STOP as u32 + 512;

// A record's head: its first four bytes as one number, of kind, flag and the two spare bytes.
#[tactic(auto, unfolding(crate::specs::Replaying::head_of))]
pub fn head_of(read: Record) -> u32
    ensures { (result ≡ head_of read) × (read.kind < 256) × (read.flag < 256) }
{
    read.kind as u32 + read.flag as u32 * 256 + read.spare as u32 * 65536
}

// Whether a record has a second, third or fourth number.
// Speed: the three are put together, so that one comparison tells; by three a long stream in sampling takes 1.15 times as long.
#[tactic(auto, using(records::proofs::Together::either_bit, crate::proofs::Heads::both_zero))]
pub fn has_more(read: Record) -> bool
    ensures { result ≡ not (one_number read) }
{
    (read.b as u64 + read.c as u64 * 4294967296) | read.d as u64 != 0
}

// Whether a record has a recording's number or second.
pub fn has_recording(read: Record) -> bool
    ensures { result ≡ not (unrecorded read) }
{
    read.recording.number != 0 || read.recording.second != 0
}

// Is a record a lot's, with nothing wrong in the sample, nor in all that was heard? A lot's head is 1, and the two counts add only even
// numbers to it, so one comparison tells.
// Speed: it is with 1, since the compiler takes 'is 0' for the rare outcome and puts good lots out of the way; with 0 a long stream of good
// credit lots takes 1.13 times as long.
#[tactic(auto, using(crate::proofs::Heads::faultless_sum))]
pub fn is_faultless(read: Record) -> bool
    ensures { result ≡ faultless read }
{
    head_of(read) as u64 + read.c as u64 * 2 + read.d as u64 * 4 == LOT as u64
}

// The why of the stop that a record holds, if it holds one.
#[tactic(auto, using(crate::proofs::Heads::whys))]
pub fn why_of(read: Record) -> Option<u32>
    ensures { result ≡ why_of read }
{
    if has_more(read) || has_recording(read) {
        return None;
    }
    match head_of(read) {
        PAUSE => Some(stops::PAUSE),
        CHANGE => Some(stops::SET_UP_CHANGED),
        _ => None,
    }
}
