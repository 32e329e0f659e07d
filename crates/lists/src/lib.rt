// Whole lists of calls, as numbers in a slice.
#![tactic(auto)]

ghost use Rattle.std.specs.Prelude.{◌≡◌, true, [], ◌∷◌, ◌+◌, ◌*◌, ◌≤◌, ◌<◌, length};
ghost use Rattle.model.specs.Store.{store_after, answers_to};
ghost use Rattle.lists.specs.Lists.{answer_length, frame_of, exist, requests_in, numbers_of, Listed};

use model::Answer;
use numbering::{ARGUMENTS, Frame};

// So many numbers hold a call: its number, its stream, its arguments.
pub const CALL_LENGTH: usize = 2 + ARGUMENTS;

// So many hold an answer: its refusal, three numbers.
pub const ANSWER_LENGTH: usize = 4;

// Makes each call of a list, one after the other, and writes the answers. Where the numbers are no list of calls, or there is not
// room for exactly their answers, it writes nothing and answers false.
// Kept: a bool, since the contract `Listed` (every list of calls, demand 3) speaks of it, and C's `listening_list` hands it on.
pub fn list(store: &mut [u8], calls: &[u32], answers: &mut [u32]) -> bool
    ensures { Listed store.old calls.now answers.old result store.new answers.new }
{
    let (calls, rest) = calls.as_chunks::<CALL_LENGTH>();
    if !rest.is_empty() || answers.len() != ANSWER_LENGTH * calls.len() || !are_made(calls) {
        return false;
    }
    make_all(store, calls, answers);
    true
}

// Whether each call exists. It is asked of all before any is made, so that numbers that are no list change nothing.
fn are_made(calls: &[[u32; CALL_LENGTH]]) -> bool
    ensures { result ≡ exist calls.now }
{
    calls.iter().all(|call| frame_of(call).is_some())
}

// Makes the calls, which all exist, and writes the answer of each in its place.
// Kept: each place by its offset, since after `as_chunks_mut` or `iter_mut` nothing is known of the slice but its length.
fn make_all(store: &mut [u8], calls: &[[u32; CALL_LENGTH]], answers: &mut [u32])
    requires { (length answers.old ≡ answer_length * length calls.now) × (exist calls.now ≡ true) }
    ensures { (store.new ≡ store_after store.old (requests_in calls.now)) × (answers.new ≡ numbers_of (answers_to store.old (requests_in calls.now))) }
{
    for (i, numbers) in calls.iter().enumerate() {
        let Frame { stream, call } = frame_of(numbers).unwrap();
        let answer = listening::make(store, stream, call);
        let at = ANSWER_LENGTH * i;
        answers[at..at + ANSWER_LENGTH].copy_from_slice(&numbers_of(answer));
    }
}

// The frame that a call's numbers make, where they make one.
// Speed: inlined, it need not hand the frame over in memory; else a list of random calls takes 1.9 times as long.
#[tactic(auto, unfolding(crate::specs::Lists::frame_at, little::specs::Little::part))]
#[inline(always)]
fn frame_of(numbers: &[u32; CALL_LENGTH]) -> Option<Frame>
    ensures { result ≡ frame_of numbers.now }
{
    let [number, stream, a, b, c, d, e, f, g] = *numbers;
    numbering::by_number(number, stream, [a, b, c, d, e, f, g])
}

// An answer as numbers, refusal first.
// Kept: no From, since it would have to stand in `model`, which knows nothing of lists.
#[tactic(auto, unfolding(crate::specs::Lists::numbers_of))]
fn numbers_of(answer: Answer) -> [u32; ANSWER_LENGTH]
    ensures { result ≡ numbers_of (answer ∷ []) }
{
    [answer.refusal, answer.first, answer.second, answer.third]
}
