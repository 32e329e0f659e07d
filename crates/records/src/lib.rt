// One record and the header of a stream's area, between bytes and values: paper 01, "The store", and paper 02, cards 1 and 3.
//
// The offsets are those of model's specs/Records.antt and specs/Area.antt. Nothing here knows the list of entries, or a refusal.
#![tactic(auto)]

ghost use Rattle.std.specs.Prelude.{◌≡◌, ◌++◌, ℕ, ◌+◌, ◌-◌, ◌*◌, ◌≤◌, ◌<◌, T, length, drop};
ghost use Rattle.little.specs.Little.{bytes, part, written};
ghost use Rattle.model.specs.declared.Plan.{Plan};
ghost use Rattle.model.specs.declared.Figures.{Figures};
ghost use Rattle.model.specs.Sizes.{record_length, header_length, most_records, area_length};
ghost use Rattle.model.specs.Stations.{valid_plan};
ghost use Rattle.model.specs.Records.{byte, recording_bytes, record_bytes, recording_in, record_in, no_recording, with_one};
ghost use Rattle.model.specs.Area.{zeros, header_of, plan_in, count_in};
ghost use Rattle.records.specs.Records.{record_at, PlanFits, LevelFits, Decides};

use model::sizes::{AREA_LENGTH, HEADER_LENGTH, RECORD_LENGTH};
use model::{Figures, Plan, Record, Recording};
use plans::continuous::Continuous;
use plans::level::LevelState;

// The kinds of records.
// Kept: numbers, for `record_in` and `get_record` give whatever the byte of the kind holds, and `with_one` takes any.
pub const LOT: u8 = 1;

pub const RUN: u8 = 2;

pub const BLOCK: u8 = 3;

pub const STOP: u8 = 4;

// So many bytes are looked at in one go where zeros are searched: an eighth of the records.
const WINDOW_LENGTH: usize = RECORD_LENGTH * 16;

// The i-th record, from 0.
// Kept: an index that is required to be below 128, here and in two more: a type for it would be made at each call, for that call alone.
#[tactic(auto, using(crate::proofs::Laws::record_at_lem))]
pub fn get_record(area: &[u8; AREA_LENGTH], i: usize) -> Record
    requires { i < most_records }
    ensures { result ≡ record_in (record_at area.now i) }
{
    get_record_at(area, HEADER_LENGTH + RECORD_LENGTH * i)
}

// The record at an offset, for callers that count in bytes.
// Kept: no From and Into for bytes: `Record` and `Recording` are model's, and their bytes stand in an area, at an offset.
#[tactic(auto, using(crate::proofs::Laws::record_read))]
pub fn get_record_at(area: &[u8], at: usize) -> Record
    requires { at + record_length ≤ length area.now }
    ensures { result ≡ record_in (part at record_length area.now) }
{
    Record {
        kind: area[at],
        flag: area[at + 1],
        spare: little::get(area, at + 2),
        a: little::get(area, at + 4),
        b: little::get(area, at + 8),
        c: little::get(area, at + 12),
        d: little::get(area, at + 16),
        recording: get_recording(area, at + 20),
    }
}

// The recording at an offset.
#[tactic(auto, using(crate::proofs::Laws::recording_read))]
fn get_recording(area: &[u8], at: usize) -> Recording
    requires { at + 8 ≤ length area.now }
    ensures { result ≡ recording_in (part at 8 area.now) }
{
    Recording {
        number: little::get(area, at),
        second: little::get(area, at + 4),
    }
}

// Writes the i-th record, from 0.
pub fn put_record(area: &mut [u8; AREA_LENGTH], i: usize, record: Record)
    requires { i < most_records }
    ensures { area.new ≡ written (header_length + record_length * i) (record_bytes «record») area.old }
{
    let at = HEADER_LENGTH + RECORD_LENGTH * i;
    put_start(area, at, record.kind, record.flag, record.spare);
    little::put(area, at + 4, record.a);
    little::put(area, at + 8, record.b);
    little::put(area, at + 12, record.c);
    little::put(area, at + 16, record.d);
    put_recording(area, at + 20, record.recording);
}

// Writes a recording.
fn put_recording(area: &mut [u8], at: usize, recording: Recording)
    requires { at + 8 ≤ length area.old }
    ensures { area.new ≡ written at (recording_bytes recording) area.old }
{
    little::put(area, at, recording.number);
    little::put(area, at + 4, recording.second);
}

// What a stop has in place of a recording.
// Kept: zeros, and no Option: `record_in` reads a recording in every record, and the definition `no_recording` has these.
pub fn no_recording() -> Recording
    ensures { result ≡ no_recording }
{
    Recording {
        number: 0,
        second: 0,
    }
}

// A record with one number: of a run, a block or a stop.
pub fn with_one(kind: u8, flag: u8, a: u32, recording: Recording) -> Record
    ensures { result ≡ with_one kind flag a recording }
{
    Record {
        kind,
        flag,
        spare: 0,
        a,
        b: 0,
        c: 0,
        d: 0,
        recording,
    }
}

// Writes zeros over the i-th record, from 0.
#[tactic(auto, using(crate::proofs::Laws::cleared))]
pub fn clear_record(area: &mut [u8; AREA_LENGTH], i: usize)
    requires { i < most_records }
    ensures { area.new ≡ written (header_length + record_length * i) (zeros record_length) area.old }
{
    put_record(area, i, with_one(0, 0, 0, no_recording()));
}

// The plan: bytes 0, 1, 4 to 9 and 40 to 43.
// Kept: no From and Into for bytes: `Plan` is model's, and the count and the figures stand between its numbers (`header_of`).
#[tactic(auto, unfolding(model::specs::Area::plan_in))]
pub fn get_plan(area: &[u8; AREA_LENGTH]) -> Plan
    ensures { result ≡ plan_in area.now }
{
    Plan {
        kind: little::byte(area, 0),
        option: little::byte(area, 1),
        a: little::get(area, 4),
        b: little::get::<u16>(area, 8) as u32,
        ceiling: little::get(area, 40),
    }
}

// The count of standing records: bytes 2 and 3.
#[tactic(auto, unfolding(model::specs::Area::count_in))]
pub fn get_count(area: &[u8; AREA_LENGTH]) -> usize
    ensures { (result ≡ count_in area.now) × (result < 65536) }
{
    little::get::<u16>(area, 2) as usize
}

// Writes the header of a stream: its plan, how many records stand, and the figures after them.
// Kept: plan, count and figures, as `header_of` takes them; `count ≤ most_records` is asked: a struct or a type would serve one call each.
// Kept: `LevelFits` is required: `LevelState` has u32 numbers, of which its public methods take any (`arrive`, `meet_stop`).
pub fn put_header(area: &mut [u8; AREA_LENGTH], plan: Plan, count: usize, figures: Figures)
    requires { T (valid_plan plan) × (count ≤ most_records) × LevelFits figures.level }
    ensures { area.new ≡ written 0 (header_of plan count figures) area.old }
{
    put_plan(area, plan, count);
    little::put(area, 12, 0u32);
    little::put(area, 16, figures.credit.0);
    put_level(area, figures);
    put_continuous(area, figures);
    little::put(area, 32, figures.accepted);
    little::put(area, 40, plan.ceiling);
    little::put(area, 44, 0u32);
}

// Is the header that of a stream with this plan, so many standing records, and these figures after them?
// Kept: each number is compared where it stands: a derived `==` needs the value read first, and a plan is compared with no ceiling in it.
// Speed: the tests come one after the other, and each helper is handed no more than it compares; put together by `&`, or handed all
// figures, a call on a short stream takes up to 1.18 times as long.
pub fn has_header(area: &[u8; AREA_LENGTH], plan: Plan, count: usize, figures: Figures) -> bool
    requires { T (valid_plan plan) × (count ≤ most_records) }
    ensures { Decides result (part 0 header_length area.now ≡ header_of plan count figures) }
{
    let level = figures.level;
    let continuous = figures.continuous;
    if !has_plan(area, plan, count) {
        return false;
    }
    if little::get::<u32>(area, 12) != 0 {
        return false;
    }
    if little::get::<u32>(area, 16) != figures.credit.0 {
        return false;
    }
    if !has_level(area, level) {
        return false;
    }
    if !has_continuous(area, continuous) {
        return false;
    }
    if little::get::<u64>(area, 32) != figures.accepted {
        return false;
    }
    has_ceiling(area, plan.ceiling)
}

// Is every byte zero from an index on?
// Speed: it is asked of windows of one length, and then of the rest: of a loop that turns a known number of times the compiler makes
// straight code. In one loop a call on a short stream takes 1.25 times as long.
pub fn is_zero_from(area: &[u8; AREA_LENGTH], from: usize) -> bool
    requires { from ≤ area_length }
    ensures { Decides result (drop from area.now ≡ zeros (length area.now - from)) }
{
    let (windows, rest) = area[from..].as_chunks::<WINDOW_LENGTH>();
    for window in windows {
        if !is_zero(window) {
            return false;
        }
    }
    is_zero(rest)
}

// Is every byte zero?
// Speed: the bytes are put together bit by bit, all of them whatever is found, so that it is compiled to steps of many bytes; left at the
// first byte that is not zero, it takes some twenty times as long over an area.
#[tactic(auto, using(crate::proofs::Together::decides_zero))]
fn is_zero(bytes: &[u8]) -> bool
    ensures { Decides result (bytes.now ≡ zeros (length bytes.now)) }
{
    bytes.iter().fold(0, |bits, byte| bits | *byte) == 0
}

// Writes the first four bytes of the header, kind, option and count, or of a record: kind, flag and the spare two.
fn put_start(area: &mut [u8], at: usize, kind: u8, beside: u8, behind: u16)
    requires { at + 4 ≤ length area.old }
    ensures { area.new ≡ written at (byte kind ++ byte beside ++ bytes 2 behind) area.old }
{
    area[at] = kind;
    area[at + 1] = beside;
    little::put(area, at + 2, behind);
}

// Writes bytes 0 to 11 of the header, count and plan but for its ceiling, whatever the figures.
fn put_plan(area: &mut [u8; AREA_LENGTH], plan: Plan, count: usize)
    requires { PlanFits plan count }
    ensures { (f : Figures) → area.new ≡ written 0 (part 0 12 (header_of plan count f)) area.old }
{
    put_start(area, 0, plan.kind as u8, plan.option as u8, count as u16);
    little::put(area, 4, plan.a);
    little::put(area, 8, plan.b as u16);
    little::put(area, 10, 0u16);
}

// Writes bytes 20 to 23, whatever the plan and the count.
fn put_level(area: &mut [u8; AREA_LENGTH], figures: Figures)
    requires { LevelFits figures.level }
    ensures { (p : Plan) (n : ℕ) → area.new ≡ written 20 (part 20 4 (header_of p n figures)) area.old }
{
    let level = figures.level;
    area[20] = level.level as u8;
    area[21] = level.row as u8;
    area[22] = level.judged as u8;
    area[23] = level.window as u8;
}

// Writes bytes 24 to 31, whatever the plan and the count.
fn put_continuous(area: &mut [u8; AREA_LENGTH], figures: Figures)
    ensures { (p : Plan) (n : ℕ) → area.new ≡ written 24 (part 24 8 (header_of p n figures)) area.old }
{
    let state = figures.continuous;
    little::put(area, 24, state.count);
    area[28] = state.phase;
    area[29] = 0;
    little::put(area, 30, state.tail);
}

// Are bytes 0 to 11 those of a header with this plan and count, whatever the figures? The ceiling is not among them.
fn has_plan(area: &[u8; AREA_LENGTH], plan: Plan, count: usize) -> bool
    requires { PlanFits plan count }
    ensures { (f : Figures) → Decides result (part 0 12 area.now ≡ part 0 12 (header_of plan count f)) }
{
    (little::byte(area, 0) == plan.kind)
        & (little::byte(area, 1) == plan.option)
        & (get_count(area) == count)
        & (little::get::<u32>(area, 4) == plan.a)
        & (little::get::<u16>(area, 8) as u32 == plan.b)
        & (little::get::<u16>(area, 10) == 0)
}

// Are bytes 20 to 23 those of a header with this state, whatever else is in it?
// Speed: put together by `&` the four are compared as one vector, for which the processor waits, since they were written one by one: a call
// on a short stream then takes up to 1.3 times as long.
fn has_level(area: &[u8; AREA_LENGTH], state: LevelState) -> bool
    ensures { (p : Plan) (n : ℕ) (f : Figures) → f.level ≡ state → Decides result (part 20 4 area.now ≡ part 20 4 (header_of p n f)) }
{
    if little::byte(area, 20) != state.level {
        return false;
    }
    if little::byte(area, 21) != state.row {
        return false;
    }
    if little::byte(area, 22) != state.judged {
        return false;
    }
    little::byte(area, 23) == state.window
}

// The same of bytes 24 to 31 and a continuous state.
fn has_continuous(area: &[u8; AREA_LENGTH], state: Continuous) -> bool
    ensures { (p : Plan) (n : ℕ) (f : Figures) → f.continuous ≡ state → Decides result (part 24 8 area.now ≡ part 24 8 (header_of p n f)) }
{
    (little::get::<u32>(area, 24) == state.count)
        & (area[28] == state.phase)
        & (area[29] == 0)
        & (little::get::<u16>(area, 30) == state.tail)
}

// The same of bytes 40 to 47 and a plan's ceiling, behind which four are zero.
fn has_ceiling(area: &[u8; AREA_LENGTH], ceiling: u32) -> bool
    ensures { (p : Plan) (n : ℕ) (f : Figures) → p.ceiling ≡ ceiling → Decides result (part 40 8 area.now ≡ part 40 8 (header_of p n f)) }
{
    (little::get::<u32>(area, 40) == ceiling) & (little::get::<u32>(area, 44) == 0)
}
