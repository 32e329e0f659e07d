// The calls for C and Rust: include/listening.h declares them. Each is the call of the same name in `listening` (of `listening_newest`,
// `newest_answer`), in `lists` or in `measuring`, and promises the same: there is no duty for the caller beyond what the header says of
// pointers.
#![tactic(auto)]

ghost use Rattle.std.specs.Prelude.{◌≡◌};
ghost use Rattle.std.specs.Bool.{then_some};
ghost use Rattle.model.specs.declared.Entry.TheVariants.{Lot, Run, Block, Stop};
ghost use Rattle.model.specs.declared.Call.TheVariants.{Open, Enter, Back, Ask, Read, Newest};
ghost use Rattle.model.specs.Store.{on_store, newest_part};
ghost use Rattle.model.specs.Claims.{on};
ghost use Rattle.model.specs.Stations.{plan_of};
ghost use Rattle.lists.specs.Lists.{Listed};
ghost use Rattle.measuring.specs.Judging.{judgement};

use measuring::{Judgement, Specification};
use model::{Answer, Part, Plan, Recording};

#[unsafe(no_mangle)]
pub extern "C" fn listening_open(
    store: &mut [u8],
    stream: u32,
    kind: u32,
    option: u32,
    a: u32,
    b: u32,
    ceiling: u32,
) -> Answer
    ensures { record { answer = result; store = store.new } ≡ on_store store.old (on stream (Open (plan_of kind option a b ceiling))) }
{
    let plan = Plan {
        kind,
        option,
        a,
        b,
        ceiling,
    };
    listening::open(store, stream, plan)
}

#[unsafe(no_mangle)]
pub extern "C" fn listening_lot(
    store: &mut [u8],
    stream: u32,
    label: u32,
    size: u32,
    sample: u32,
    wrong: u32,
    wrong_in_all: u32,
    number: u32,
    second: u32,
) -> Answer
    ensures { record { answer = result; store = store.new } ≡ on_store store.old (on stream (Enter (Lot label size sample wrong wrong_in_all (record { number = number; second = second })))) }
{
    listening::lot(
        store,
        stream,
        label,
        size,
        sample,
        wrong,
        wrong_in_all,
        Recording { number, second },
    )
}

// Kept: beside `listening_block`, since each call of C has a name of its own (the C interface).
#[unsafe(no_mangle)]
pub extern "C" fn listening_run(
    store: &mut [u8],
    stream: u32,
    right: u32,
    wrong: u32,
    number: u32,
    second: u32,
) -> Answer
    ensures { record { answer = result; store = store.new } ≡ on_store store.old (on stream (Enter (Run right wrong (record { number = number; second = second })))) }
{
    listening::run(store, stream, right, wrong, Recording { number, second })
}

#[unsafe(no_mangle)]
pub extern "C" fn listening_block(
    store: &mut [u8],
    stream: u32,
    heard: u32,
    wrong: u32,
    number: u32,
    second: u32,
) -> Answer
    ensures { record { answer = result; store = store.new } ≡ on_store store.old (on stream (Enter (Block heard wrong (record { number = number; second = second })))) }
{
    listening::block(store, stream, heard, wrong, Recording { number, second })
}

#[unsafe(no_mangle)]
pub extern "C" fn listening_stop(store: &mut [u8], stream: u32, why: u32, days: u32) -> Answer
    ensures { record { answer = result; store = store.new } ≡ on_store store.old (on stream (Enter (Stop why days))) }
{
    listening::stop(store, stream, why, days)
}

#[unsafe(no_mangle)]
pub extern "C" fn listening_back(store: &mut [u8], stream: u32) -> Answer
    ensures { record { answer = result; store = store.new } ≡ on_store store.old (on stream Back) }
{
    listening::back(store, stream)
}

#[unsafe(no_mangle)]
pub extern "C" fn listening_ask(store: &[u8], stream: u32, size: u32) -> Answer
    ensures { record { answer = result; store = store.now } ≡ on_store store.now (on stream (Ask size)) }
{
    listening::ask(store, stream, size)
}

#[unsafe(no_mangle)]
pub extern "C" fn listening_read(store: &[u8], stream: u32) -> Answer
    ensures { record { answer = result; store = store.now } ≡ on_store store.now (on stream Read) }
{
    listening::read(store, stream)
}

#[unsafe(no_mangle)]
pub extern "C" fn listening_newest(store: &[u8], stream: u32, count: u32) -> Answer
    ensures { record { answer = result; store = store.now } ≡ on_store store.now (on stream (Newest count)) }
{
    listening::newest_answer(store, stream, count)
}

// C cannot be handed a part of what it lent, so it is told where the part is.
#[unsafe(no_mangle)]
pub extern "C" fn listening_newest_part(store: &[u8], stream: u32, count: u32) -> Part
    ensures { result ≡ newest_part store.now stream count }
{
    listening::newest_part(store, stream, count)
}

#[unsafe(no_mangle)]
pub extern "C" fn listening_list(store: &mut [u8], calls: &[u32], answers: &mut [u32]) -> bool
    ensures { Listed store.old calls.now answers.old result store.new answers.new }
{
    lists::list(store, calls, answers)
}

// Kept: a flag stands before each number that may be absent, because C has no Option (the C interface).
#[unsafe(no_mangle)]
pub extern "C" fn listening_judge(
    values: &[i32],
    has_lower: bool,
    lower: i32,
    has_upper: bool,
    upper: i32,
    k: u32,
    has_f: bool,
    f: u32,
) -> Judgement
    ensures { result ≡ judgement values.now (record { lower = then_some has_lower lower; upper = then_some has_upper upper; k = k; f = then_some has_f f }) }
{
    let specification = Specification {
        lower: has_lower.then_some(lower),
        upper: has_upper.then_some(upper),
        k,
        f: has_f.then_some(f),
    };
    measuring::judge(values, specification)
}
