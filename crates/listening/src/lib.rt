// The listening controller: the calls of paper 01, and of cards 1 and 3 of paper 02, on a lent store of sixteen streams. No call asks
// anything of its caller: bad input gets a refusal number, and the store stays as it was. A call looks at its stream, which gives refusals
// 1, 2, 3 and 6 in one place; it tests its own refusals; an entry is then tried by the step of its plan; and what changed is written in the
// stream's area. Each step may refuse, so that a call is tried in a function of its own, and answered in one place.
#![tactic(auto)]

ghost use Rattle.std.specs.Prelude.{◌≡◌, ◌+◌, ◌-◌, ◌≤◌, ◌<◌, min, T, length};
ghost use Rattle.little.specs.Little.{written};
ghost use Rattle.model.specs.declared.Entry.TheVariants.{Lot, Run, Block, Stop};
ghost use Rattle.model.specs.declared.Call.TheVariants.{Open, Enter, Back, Ask, Read, Newest};
ghost use Rattle.model.specs.Sizes.{area_length, record_length, most_records, streams, store_length, start_of};
ghost use Rattle.model.specs.Stations.{valid_plan};
ghost use Rattle.model.specs.Figuring.{started};
ghost use Rattle.model.specs.Records.{record_bytes, record_in};
ghost use Rattle.model.specs.Area.{zeros, header_of};
ghost use Rattle.model.specs.Store.{area_at, on_store, ending_at_last, newest_part};
ghost use Rattle.model.specs.Claims.{on};
ghost use Rattle.records.specs.Records.{record_at, LevelFits};
ghost use Rattle.rules.specs.Refusing.{answered};
ghost use Rattle.areas.specs.Written.{rewritten};
ghost use Rattle.listening.specs.Handed.{looked_at, MayWrite, part_of};

use model::sizes::{AREA_LENGTH, STORE_LENGTH, STREAMS};
use model::{Answer, Call, Entry, Figures, HeardLot, Part, Plan, Record, Recording, sizes};
use plans::{LotSize, SampleSize};
use replay::Standing;
use rules::refusing::Refusal;
use rules::{answering, asking, plan, refusing};

// Opens a stream with a plan.
// Kept: store and stream apart, here and in every call: C lends the one and names the other (include/listening.h).
pub fn open(store: &mut [u8], stream: u32, plan: Plan) -> Answer
    ensures { record { answer = result; store = store.new } ≡ on_store store.old (on stream (Open plan)) }
{
    answering::answered(try_open(store, stream, plan))
}

// Enters a lot.
pub fn lot(
    store: &mut [u8],
    stream: u32,
    label: u32,
    size: u32,
    sample: u32,
    wrong: u32,
    wrong_in_all: u32,
    recording: Recording,
) -> Answer
    ensures { record { answer = result; store = store.new } ≡ on_store store.old (on stream (Enter (Lot label size sample wrong wrong_in_all recording))) }
{
    // N and n as the types that keep them apart
    let heard = HeardLot {
        label,
        size: LotSize(size),
        wrong,
        wrong_in_all,
    };
    let sample = SampleSize(sample);
    answering::answered(try_lot(store, stream, heard, sample, recording))
}

// Enters a run.
pub fn run(store: &mut [u8], stream: u32, right: u32, wrong: u32, recording: Recording) -> Answer
    ensures { record { answer = result; store = store.new } ≡ on_store store.old (on stream (Enter (Run right wrong recording))) }
{
    answering::answered(try_run(store, stream, right, wrong, recording))
}

// Enters a block.
pub fn block(store: &mut [u8], stream: u32, heard: u32, wrong: u32, recording: Recording) -> Answer
    ensures { record { answer = result; store = store.new } ≡ on_store store.old (on stream (Enter (Block heard wrong recording))) }
{
    answering::answered(try_block(store, stream, heard, wrong, recording))
}

// Enters a stop, which has no recording.
pub fn stop(store: &mut [u8], stream: u32, why: u32, days: u32) -> Answer
    ensures { record { answer = result; store = store.new } ≡ on_store store.old (on stream (Enter (Stop why days))) }
{
    answering::answered(try_stop(store, stream, why, days))
}

// Takes the newest entry back.
pub fn back(store: &mut [u8], stream: u32) -> Answer
    ensures { record { answer = result; store = store.new } ≡ on_store store.old (on stream Back) }
{
    answering::answered(try_back(store, stream))
}

// The sample that a lot would ask for. Calls that only look borrow the store with `&`, so that they can't write.
pub fn ask(store: &[u8], stream: u32, size: u32) -> Answer
    ensures { record { answer = result; store = store.now } ≡ on_store store.now (on stream (Ask size)) }
{
    answering::answered(try_ask(store, stream, LotSize(size)))
}

// The count, what is accepted, and the figure of the plan.
pub fn read(store: &[u8], stream: u32) -> Answer
    ensures { record { answer = result; store = store.now } ≡ on_store store.now (on stream Read) }
{
    answering::answered(try_read(store, stream))
}

// How many of the newest standing records a count gets.
pub fn newest_answer(store: &[u8], stream: u32, count: u32) -> Answer
    ensures { record { answer = result; store = store.now } ≡ on_store store.now (on stream (Newest count)) }
{
    answering::answered(try_newest(store, stream, count))
}

// Where these records lie in the store.
#[tactic(auto, using(crate::proofs::Making::newest_parts))]
pub fn newest_part(store: &[u8], stream: u32, count: u32) -> Part
    ensures { result ≡ newest_part store.now stream count }
{
    match look(store, stream, 0) {
        Ok(standing) => ending_at_last(stream, standing.count, standing.count.min(count as usize)),
        Err(_) => Part {
            offset: 0,
            length: 0,
        },
    }
}

// The records themselves: a part of the lent store, ending at the last standing record, and empty where the call is refused. Its contract
// says at which place of the store it starts, and its bytes.
#[tactic(auto, using(crate::proofs::Making::part_inside))]
pub fn newest(store: &[u8], stream: u32, count: u32) -> &[u8]
    ensures { (result.ref_ptr, result.now) ≡ part_of store.entry.ref_ptr store.now (newest_part store.now stream count) }
{
    let found = newest_part(store, stream, count);
    let start = found.offset;
    let end = start + found.length;
    &store[start..end]
}

// Makes any of the calls.
pub fn make(store: &mut [u8], stream: u32, call: Call) -> Answer
    ensures { record { answer = result; store = store.new } ≡ on_store store.old (on stream call) }
{
    match call {
        Call::Open(plan) => open(store, stream, plan),
        Call::Enter(entry) => enter(store, stream, entry),
        Call::Back => back(store, stream),
        Call::Ask(size) => ask(store, stream, size),
        Call::Read => read(store, stream),
        Call::Newest(count) => newest_answer(store, stream, count),
    }
}

// Enters a lot, run, block or stop.
fn enter(store: &mut [u8], stream: u32, entry: Entry) -> Answer
    ensures { record { answer = result; store = store.new } ≡ on_store store.old (on stream (Enter entry)) }
{
    match entry {
        Entry::Lot {
            label,
            size,
            sample,
            wrong,
            wrong_in_all,
            recording,
        } => lot(
            store,
            stream,
            label,
            size,
            sample,
            wrong,
            wrong_in_all,
            recording,
        ),
        Entry::Run {
            right,
            wrong,
            recording,
        } => run(store, stream, right, wrong, recording),
        Entry::Block {
            heard,
            wrong,
            recording,
        } => block(store, stream, heard, wrong, recording),
        Entry::Stop { why, days } => stop(store, stream, why, days),
    }
}

#[tactic(auto, using(crate::proofs::Making::opens))]
fn try_open(store: &mut [u8], stream: u32, plan: Plan) -> Result<Answer, Refusal>
    ensures { record { answer = answered result; store = store.new } ≡ on_store store.old (on stream (Open plan)) }
{
    match look(store, stream, 0) {
        Ok(_) => return Err(Refusal::AlreadyOpen),
        Err(Refusal::Unopened) => {}
        Err(refusal) => return Err(refusal),
    }
    if !plan::is_valid(plan) {
        return Err(Refusal::InvalidPlan);
    }
    put_plan(store, stream, plan);
    Ok(answering::gives(0, 0, 0))
}

#[tactic(auto, using(crate::proofs::Trying::lots))]
fn try_lot(
    store: &mut [u8],
    stream: u32,
    lot: HeardLot,
    sample: SampleSize,
    recording: Recording,
) -> Result<Answer, Refusal>
    ensures { record { answer = answered result; store = store.new } ≡ on_store store.old (on stream (Enter (Lot lot.label lot.size.0 sample.0 lot.wrong lot.wrong_in_all recording))) }
{
    let standing = look(store, stream, 0)?;
    let plan = standing.plan;
    let before = standing.figures;
    refusing::lot(plan, before, standing.count, lot.label, lot.size, sample)?;
    let after = replay::enter_lot(plan, before, lot).ok_or(Refusal::Counts)?;
    refusing::recorded(recording)?;
    let answer = answering::lot(plan, before, after, lot);
    let record = Record {
        kind: records::LOT,
        flag: 0,
        spare: 0,
        a: lot.label,
        b: lot.size.0,
        c: lot.wrong,
        d: lot.wrong_in_all,
        recording,
    };
    put_entry(store, stream, standing, record, after);
    Ok(answer)
}

// Kept: beside `try_block`: the two share their order alone, and each has its own tests, step, record and answer.
#[tactic(auto, using(crate::proofs::Trying::runs))]
fn try_run(
    store: &mut [u8],
    stream: u32,
    right: u32,
    wrong: u32,
    recording: Recording,
) -> Result<Answer, Refusal>
    ensures { record { answer = answered result; store = store.new } ≡ on_store store.old (on stream (Enter (Run right wrong recording))) }
{
    let standing = look(store, stream, 0)?;
    let plan = standing.plan;
    let before = standing.figures;
    refusing::run(plan, standing.count, right, wrong)?;
    let after = replay_continuous::enter_run(plan, before, right, wrong).ok_or(Refusal::Phase)?;
    refusing::recorded(recording)?;
    let record = records::with_one(records::RUN, wrong as u8, right, recording);
    put_entry(store, stream, standing, record, after);
    Ok(answering::run(after, right))
}

#[tactic(auto, using(crate::proofs::Trying::blocks))]
fn try_block(
    store: &mut [u8],
    stream: u32,
    heard: u32,
    wrong: u32,
    recording: Recording,
) -> Result<Answer, Refusal>
    ensures { record { answer = answered result; store = store.new } ≡ on_store store.old (on stream (Enter (Block heard wrong recording))) }
{
    let standing = look(store, stream, 0)?;
    let plan = standing.plan;
    let before = standing.figures;
    refusing::block(plan, standing.count, heard, wrong)?;
    let after = replay_continuous::enter_block(plan, before, heard, wrong).ok_or(Refusal::Phase)?;
    refusing::recorded(recording)?;
    let answer = answering::block(plan, before, after, heard, wrong);
    let record = records::with_one(records::BLOCK, wrong as u8, heard, recording);
    put_entry(store, stream, standing, record, after);
    Ok(answer)
}

#[tactic(auto, using(crate::proofs::Trying::stops))]
fn try_stop(store: &mut [u8], stream: u32, why: u32, days: u32) -> Result<Answer, Refusal>
    ensures { record { answer = answered result; store = store.new } ≡ on_store store.old (on stream (Enter (Stop why days))) }
{
    let standing = look(store, stream, 0)?;
    let before = standing.figures;
    refusing::stop(before, standing.count)?;
    let after = replay::enter_stop(standing.plan, before, why, days).ok_or(Refusal::Range)?;
    let record = records::with_one(records::STOP, why as u8, days, records::no_recording());
    put_entry(store, stream, standing, record, after);
    Ok(answering::gives(0, 0, 0))
}

// The look sets the newest entry apart, and gives the figures before it: they can't be had from those after.
#[tactic(auto, using(crate::proofs::Making::backs))]
fn try_back(store: &mut [u8], stream: u32) -> Result<Answer, Refusal>
    ensures { record { answer = answered result; store = store.new } ≡ on_store store.old (on stream Back) }
{
    let standing = look(store, stream, 1)?;
    if standing.count == 0 {
        return Err(Refusal::NothingStands);
    }
    let kind = take_entry(store, stream, standing);
    Ok(answering::gives(kind, 0, 0))
}

#[tactic(auto, using(crate::proofs::Making::asks))]
fn try_ask(store: &[u8], stream: u32, size: LotSize) -> Result<Answer, Refusal>
    ensures { record { answer = answered result; store = store.now } ≡ on_store store.now (on stream (Ask size.0)) }
{
    let standing = look(store, stream, 0)?;
    let plan = standing.plan;
    let figures = standing.figures;
    refusing::ask(plan, figures, size)?;
    Ok(answering::gives(asking::sample(plan, figures, size).0, 0, 0))
}

#[tactic(auto, using(crate::proofs::Making::reads))]
fn try_read(store: &[u8], stream: u32) -> Result<Answer, Refusal>
    ensures { record { answer = answered result; store = store.now } ≡ on_store store.now (on stream Read) }
{
    let standing = look(store, stream, 0)?;
    let figures = standing.figures;
    Ok(answering::gives(
        standing.count as u32,
        figures.accepted as u32,
        answering::read_figure(standing.plan, figures),
    ))
}

#[tactic(auto, using(crate::proofs::Making::newest_calls))]
fn try_newest(store: &[u8], stream: u32, count: u32) -> Result<Answer, Refusal>
    ensures { record { answer = answered result; store = store.now } ≡ on_store store.now (on stream (Newest count)) }
{
    let standing = look(store, stream, 0)?;
    let handed = standing.count.min(count as usize);
    Ok(answering::gives(handed as u32, 0, 0))
}

// What a call sees of its stream, with the figures before so many of the newest entries: refusals 1 and 2, then what the area says.
#[tactic(auto, unfolding(crate::specs::Handed::looked_at))]
fn look(store: &[u8], stream: u32, newest: usize) -> Result<Standing, Refusal>
    ensures { result ≡ looked_at newest stream store.now }
{
    if store.len() != STORE_LENGTH {
        return Err(Refusal::StoreLength);
    }
    if STREAMS <= stream {
        return Err(Refusal::Stream);
    }
    let start = start_of(stream);
    let end = start + AREA_LENGTH;
    let Some(area) = store[start..end].as_array::<AREA_LENGTH>() else {
        unreachable!()
    };
    replay::read(area, newest)
}

// The part of the store that starts at the stream's offset is lent on, to be opened with a plan.
fn put_plan(store: &mut [u8], stream: u32, plan: Plan)
    requires { (length store.old ≡ store_length) × (stream < streams) × T (valid_plan plan) }
    ensures { store.new ≡ written (start_of stream) (written 0 (header_of plan 0 (started plan)) (area_at stream store.old)) store.old }
{
    let start = start_of(stream);
    let end = start + AREA_LENGTH;
    open_part(&mut store[start..end], plan);
}

// The same for one entry more, with the figures after it.
fn put_entry(store: &mut [u8], stream: u32, standing: Standing, record: Record, after: Figures)
    requires { MayWrite store.old stream standing.plan standing.count after }
    ensures { store.new ≡ written (start_of stream) (rewritten standing.plan standing.count (record_bytes «record») (standing.count + 1) after (area_at stream store.old)) store.old }
{
    let start = start_of(stream);
    let end = start + AREA_LENGTH;
    put_in_part(&mut store[start..end], standing, record, after);
}

// And for one less, with the figures before it; gives its kind.
fn take_entry(store: &mut [u8], stream: u32, standing: Standing) -> u32
    requires some { 0 < standing.count }
    requires may { MayWrite store.old stream standing.plan (standing.count - 1) standing.figures }
    ensures kind { result ≡ (record_in (record_at (area_at stream store.old) (standing.count - 1))).kind }
    ensures left { store.new ≡ written (start_of stream) (rewritten standing.plan (standing.count - 1) (zeros record_length) (standing.count - 1) standing.figures (area_at stream store.old)) store.old }
{
    let start = start_of(stream);
    let end = start + AREA_LENGTH;
    take_from_part(&mut store[start..end], standing)
}

// A part as long as an area, as the array that `areas` asks for: to be opened.
// Kept: two functions each (one was tried): of a part that is lent and made an array in one function, nothing is known afterwards.
fn open_part(part: &mut [u8], plan: Plan)
    requires { (length part.old ≡ area_length) × T (valid_plan plan) }
    ensures { part.new ≡ written 0 (header_of plan 0 (started plan)) part.old }
{
    if let Some(area) = part.as_mut_array::<AREA_LENGTH>() {
        areas::open(area, plan);
    }
}

// The same for one entry more.
fn put_in_part(part: &mut [u8], standing: Standing, record: Record, after: Figures)
    requires { (length part.old ≡ area_length) × T (valid_plan standing.plan) × (standing.count < most_records) × LevelFits after.level }
    ensures { part.new ≡ rewritten standing.plan standing.count (record_bytes «record») (standing.count + 1) after part.old }
{
    if let Some(area) = part.as_mut_array::<AREA_LENGTH>() {
        areas::put_entry(area, standing.plan, standing.count, record, after);
    }
}

// And for one less.
fn take_from_part(part: &mut [u8], standing: Standing) -> u32
    requires { (length part.old ≡ area_length) × T (valid_plan standing.plan) × (0 < standing.count) × (standing.count - 1 < most_records) × LevelFits standing.figures.level }
    ensures { (result ≡ (record_in (record_at part.old (standing.count - 1))).kind) × (part.new ≡ rewritten standing.plan (standing.count - 1) (zeros record_length) (standing.count - 1) standing.figures part.old) }
{
    let Some(area) = part.as_mut_array::<AREA_LENGTH>() else {
        unreachable!()
    };
    areas::take_entry(area, standing.plan, standing.count - 1, standing.figures)
}

// So many of a stream's standing records, the last of which ends the part.
fn ending_at_last(stream: u32, standing: usize, handed: usize) -> Part
    requires { (stream < streams) × (standing ≤ most_records) × (handed ≤ standing) }
    ensures { result ≡ ending_at_last stream standing handed }
{
    let before = sizes::HEADER_LENGTH + sizes::RECORD_LENGTH * (standing - handed);
    Part {
        offset: start_of(stream) + before,
        length: sizes::RECORD_LENGTH * handed,
    }
}

// Where a stream's area starts.
// Kept: a number, and no type for `stream < streams`: `look` gives a `Standing`, and four functions would need both.
fn start_of(stream: u32) -> usize
    requires { stream < streams }
    ensures { result ≡ start_of stream }
{
    stream as usize * AREA_LENGTH
}
