// What the calls write in one stream's area: a plan, one entry more, one entry less. Each function takes a whole area, which `listening`
// lends it out of the store; what the area says before, and which refusal a call gets, is not looked at here.
#![tactic(auto)]

ghost use Rattle.std.specs.Prelude.{◌≡◌, ◌+◌, ◌<◌, T};
ghost use Rattle.little.specs.Little.{written};
ghost use Rattle.model.specs.Sizes.{record_length, most_records};
ghost use Rattle.model.specs.Stations.{valid_plan};
ghost use Rattle.model.specs.Figuring.{started};
ghost use Rattle.model.specs.Records.{record_bytes, record_in};
ghost use Rattle.model.specs.Area.{zeros, header_of};
ghost use Rattle.records.specs.Records.{record_at, LevelFits};
ghost use Rattle.areas.specs.Written.{rewritten};

use model::sizes::AREA_LENGTH;
use model::{Figures, Plan, Record};
use rules::plan;

// Opens the stream: writes the header of one with this plan, on which nothing stands.
#[tactic(auto, using(crate::proofs::OnReading::started_fits))]
pub fn open(area: &mut [u8; AREA_LENGTH], plan: Plan)
    requires { T (valid_plan plan) }
    ensures { area.new ≡ written 0 (header_of plan 0 (started plan)) area.old }
{
    records::put_header(area, plan, 0, plan::started(plan));
}

// Enters a record behind those that stand, with the figures after it.
// Kept: plan, count and figures apart: a `Standing` has the figures before the entry, and `rewritten` takes those after it.
#[tactic(auto, unfolding(crate::specs::Written::rewritten))]
pub fn put_entry(
    area: &mut [u8; AREA_LENGTH],
    plan: Plan,
    count: usize,
    record: Record,
    figures: Figures,
)
    requires { T (valid_plan plan) × (count < most_records) × LevelFits figures.level }
    ensures { area.new ≡ rewritten plan count (record_bytes «record») (count + 1) figures area.old }
{
    records::put_record(area, count, record);
    records::put_header(area, plan, count + 1, figures);
}

// Takes the newest record back: clears it, writes the figures before it, and gives its kind.
// Kept: the kind is a number: the record's byte may hold any (`record_in`), and `Answer` has numbers (C).
#[tactic(auto, unfolding(crate::specs::Written::rewritten))]
pub fn take_entry(area: &mut [u8; AREA_LENGTH], plan: Plan, last: usize, figures: Figures) -> u32
    requires { T (valid_plan plan) × (last < most_records) × LevelFits figures.level }
    ensures { (result ≡ (record_in (record_at area.old last)).kind) × (area.new ≡ rewritten plan last (zeros record_length) last figures area.old) }
{
    let taken = records::get_record(area, last);
    records::clear_record(area, last);
    records::put_header(area, plan, last, figures);
    taken.kind as u32
}
