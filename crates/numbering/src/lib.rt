// The calls by number, paper 01, "Hexadecimal frames", and paper 02, cards 1 and 3: which number is which call, and which of its arguments
// it uses.
#![tactic(auto)]

ghost use Rattle.std.specs.Prelude.{◌≡◌};
ghost use Rattle.model.specs.Stations.{plan_of};
ghost use Rattle.numbering.specs.Numbers.{frame_arguments, slot, recording_of, uses, unused_zero, numbered};
ghost use Rattle.numbering.specs.Kinds.{number_of, StandsFor};

use model::{Call, Entry, Plan, Recording};

// Every call has so many arguments, and uses some of them.
pub const ARGUMENTS: usize = 7;

// What numbers stand for: a call made on a stream.
#[derive(Clone, Copy)]
pub struct Frame {
    pub stream: u32,
    pub call: Call,
}

// The kinds of calls.
#[derive(Clone, Copy)]
enum Kind {
    Open,
    Lot,
    Run,
    Block,
    Stop,
    Back,
    Ask,
    Read,
    Newest,
}

// A number that no call has.
#[derive(Clone, Copy)]
struct NoCall;

impl TryFrom<u32> for Kind {
    type Error = NoCall;

    ghost try_from_gives = { StandsFor };

    fn try_from(number: u32) -> Result<Self, NoCall> {
        match number {
            1 => Ok(Kind::Open),
            2 => Ok(Kind::Lot),
            3 => Ok(Kind::Run),
            4 => Ok(Kind::Block),
            5 => Ok(Kind::Stop),
            6 => Ok(Kind::Back),
            7 => Ok(Kind::Ask),
            8 => Ok(Kind::Read),
            9 => Ok(Kind::Newest),
            _ => Err(NoCall),
        }
    }
}

impl Kind {
    // Whether each argument that the call does not use is 0.
    // Speed: all are looked at, whatever is found; left at the first that is not 0, as by `all`, a list of random calls takes 1.3 times as
    // long.
    #[tactic(auto, unfolding(crate::specs::Numbers::unused_zero))]
    fn unused_zero(self, arguments: [u32; ARGUMENTS]) -> bool
        ensures { result ≡ unused_zero (number_of self) arguments frame_arguments }
    {
        let mut zero = true;
        for (i, argument) in arguments.iter().enumerate() {
            zero &= self.uses(i + 1) | (*argument == 0);
        }
        zero
    }

    // Whether the call uses a slot, counted from 1. A stop does not use the recording's.
    #[tactic(auto, unfolding(crate::specs::Numbers::uses, crate::specs::Numbers::is_recording_slot))]
    fn uses(self, slot: usize) -> bool
        ensures { result ≡ uses (number_of self) slot }
    {
        let recording = (slot == 6) | (slot == 7);
        match self {
            Kind::Open => slot <= 5,
            Kind::Lot => (slot <= 5) | recording,
            Kind::Run => (slot <= 2) | recording,
            Kind::Block => (slot <= 2) | recording,
            Kind::Stop => slot <= 2,
            Kind::Back => false,
            Kind::Ask => slot <= 1,
            Kind::Read => false,
            Kind::Newest => slot <= 1,
        }
    }
}

// The frame of a call's number, a stream and the arguments, where they make one.
#[tactic(auto, unfolding(crate::specs::Numbers::numbered))]
pub fn by_number(number: u32, stream: u32, arguments: [u32; ARGUMENTS]) -> Option<Frame>
    ensures { result ≡ numbered number stream arguments }
{
    let kind = Kind::try_from(number).ok()?;
    if !kind.unused_zero(arguments) {
        return None;
    }
    let [a, b, ..] = arguments;
    let call = match kind {
        Kind::Open => open_call(arguments),
        Kind::Lot => lot_call(arguments),
        Kind::Run => run_call(arguments),
        Kind::Block => block_call(arguments),
        Kind::Stop => Call::Enter(Entry::Stop { why: a, days: b }),
        Kind::Back => Call::Back,
        Kind::Ask => Call::Ask(a),
        Kind::Read => Call::Read,
        Kind::Newest => Call::Newest(a),
    };
    Some(Frame { stream, call })
}

fn open_call(arguments: [u32; ARGUMENTS]) -> Call
    ensures { result ≡ Call.Open (plan_of (slot 1 arguments) (slot 2 arguments) (slot 3 arguments) (slot 4 arguments) (slot 5 arguments)) }
{
    let [kind, option, a, b, ceiling, ..] = arguments;
    Call::Open(Plan {
        kind,
        option,
        a,
        b,
        ceiling,
    })
}

fn lot_call(arguments: [u32; ARGUMENTS]) -> Call
    ensures { result ≡ Call.Enter (Entry.Lot (slot 1 arguments) (slot 2 arguments) (slot 3 arguments) (slot 4 arguments) (slot 5 arguments) (recording_of arguments)) }
{
    let [label, size, sample, wrong, wrong_in_all, ..] = arguments;
    Call::Enter(Entry::Lot {
        label,
        size,
        sample,
        wrong,
        wrong_in_all,
        recording: recording_in(arguments),
    })
}

// Kept: beside `block_call`, which makes another variant with a field of another name: nothing but the recording is common to both.
fn run_call(arguments: [u32; ARGUMENTS]) -> Call
    ensures { result ≡ Call.Enter (Entry.Run (slot 1 arguments) (slot 2 arguments) (recording_of arguments)) }
{
    let [right, wrong, ..] = arguments;
    Call::Enter(Entry::Run {
        right,
        wrong,
        recording: recording_in(arguments),
    })
}

fn block_call(arguments: [u32; ARGUMENTS]) -> Call
    ensures { result ≡ Call.Enter (Entry.Block (slot 1 arguments) (slot 2 arguments) (recording_of arguments)) }
{
    let [heard, wrong, ..] = arguments;
    Call::Enter(Entry::Block {
        heard,
        wrong,
        recording: recording_in(arguments),
    })
}

// The recording that a call brings: "two arguments at the end, number then second".
fn recording_in(arguments: [u32; ARGUMENTS]) -> Recording
    ensures { result ≡ recording_of arguments }
{
    let [.., number, second] = arguments;
    Recording { number, second }
}
