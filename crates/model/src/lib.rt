// A station, as paper 01 has it: its plan, its standing entries, the figures that follow from them, and the calls on it. The
// meaning is in specs/; this crate makes no call on a store.
#![tactic(auto)]

pub mod claims;
pub mod sizes;

use plans::LotSize;
use plans::continuous::Continuous;
use plans::credit::Credit;
use plans::level::LevelState;

// Open's arguments.
// Kept: kind and option are numbers, and 0 is no ceiling, since `listening::open` answers for every plan (refusal 5, `valid_plan`).
#[derive(Clone, Copy)]
pub struct Plan {
    // 1 credit, 2 level, 3 continuous
    pub kind: u32,
    pub option: u32,
    // the AOQL in millionths, the verification level, or the clearance number i
    pub a: u32,
    // the interval g of a continuous plan, 0 in the others
    pub b: u32,
    // Kmax, the upper limit on the usable credit of a credit plan, 0 for none: paper 02, card 3
    pub ceiling: u32,
}

// Where the raw recording behind an entry is found: paper 02, card 1.
// Kept: 0 for none, since `listening::lot` answers for every number (refusal 17, `lacks_recording`).
#[derive(Clone, Copy)]
pub struct Recording {
    // 0 is no recording's
    pub number: u32,
    // the second of it at which the entry starts
    pub second: u32,
}

// What a call enters, with all of its arguments; the letters are paper 01's. A stop has no recording.
#[derive(Clone, Copy)]
pub enum Entry {
    Lot {
        label: u32,
        // N
        size: u32,
        // n
        sample: u32,
        // d, in the sample
        wrong: u32,
        // D, in all that was heard
        wrong_in_all: u32,
        recording: Recording,
    },
    Run {
        // h
        right: u32,
        // w
        wrong: u32,
        recording: Recording,
    },
    Block {
        // p
        heard: u32,
        // w
        wrong: u32,
        recording: Recording,
    },
    Stop {
        // Kept: a number, since `listening::stop` answers for every number (refusal 15).
        why: u32,
        days: u32,
    },
}

// A lot as its step takes it: without the sample, which is worked out, and the recording, at which no step looks.
#[derive(Clone, Copy)]
pub struct HeardLot {
    pub label: u32,
    // N
    pub size: LotSize,
    // d
    pub wrong: u32,
    // D
    pub wrong_in_all: u32,
}

// A record as it stands in the bytes, whatever its kind.
// Kept: kind and flag are numbers, since `records::get_record_at` gives every byte as it stands (`record_in`).
#[derive(Clone, Copy)]
pub struct Record {
    pub kind: u8,
    pub flag: u8,
    // zero in a sound store
    pub spare: u16,
    pub a: u32,
    pub b: u32,
    pub c: u32,
    pub d: u32,
    pub recording: Recording,
}

// The calls: Open, the four that enter something, Back, Ask and Read; and the newest records (paper 02, card 1), so many.
#[derive(Clone, Copy)]
pub enum Call {
    Open(Plan),
    Enter(Entry),
    Back,
    Ask(u32),
    Read,
    Newest(u32),
}

// What a call gives: its refusal number, 0 for none, and three numbers. It is laid out as C lays it out, to be handed over whole.
// Kept: a refusal's number beside numbers, and no Result, as `listening_answer` of include/listening.h has them.
#[repr(C)]
#[derive(Clone, Copy)]
pub struct Answer {
    pub refusal: u32,
    pub first: u32,
    pub second: u32,
    pub third: u32,
}

// A part of the store: where it starts, and how many bytes it has. It is laid out as C lays it out.
// Kept: a length beside an offset, and no slice, as `listening_part` of include/listening.h has them.
#[repr(C)]
#[derive(Clone, Copy)]
pub struct Part {
    pub offset: usize,
    pub length: usize,
}

// A stream's figures.
#[derive(Clone, Copy, Default)]
pub struct Figures {
    // the least label above the newest standing lot's, 0 where no lot stands
    // Kept: no Option, since `rules::refusing::may_follow` answers for every number (`same_label`).
    pub above: u64,
    pub accepted: u64,
    pub continuous: Continuous,
    pub credit: Credit,
    pub level: LevelState,
}
