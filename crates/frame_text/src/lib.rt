// Hexadecimal frames, paper 01: a line of text as a call on a stream, and an answer as a line of text.
#![tactic(auto)]

pub mod claims;

ghost use Rattle.std.specs.Prelude.{◌≡◌, ◌+◌, ◌<◌, ◌≤◌, T, length};
ghost use Rattle.little.specs.Little.{part, written};
ghost use Rattle.numbering.specs.Numbers.{frame_arguments};
ghost use Rattle.frame_text.specs.Digits.{digit, all_digits, digit_of, hex_value, digits_of};
ghost use Rattle.frame_text.specs.Frames.{word_digits, frame_length, arguments_to, frame_of};
ghost use Rattle.frame_text.specs.Answers.{text_length, bad_length, answer_text, bad_text};

use model::Answer;
use numbering::{ARGUMENTS, Frame};

// A call's and a stream's two digits, and eight for each argument.
pub const FRAME_LENGTH: usize = 4 + 8 * ARGUMENTS;

// The longest text of a line: an answer's 26 digits and a line feed. No byte of input prints more.
pub const TEXT_LENGTH: usize = 27;

// The text of a line that is no frame: two digits and a line feed.
pub const BAD_LENGTH: usize = 3;

pub const LINE_FEED: u8 = 10;

// The frame in a line, if it is one; the line is given without its line feed.
#[tactic(auto, unfolding(crate::specs::Frames::frame_of))]
// Speed: inlined where lines are fed; else lines that are no frame take up to 1.12 times as long.
#[inline(always)]
pub fn parse(line: &[u8]) -> Option<Frame>
    ensures { result ≡ frame_of line.now }
{
    if line.len() != FRAME_LENGTH {
        return None;
    }
    if !all_digits(line) {
        return None;
    }
    // The first eight digits: the call's two, the stream's two, and four of the first argument.
    let head = word_at(line, 0);
    numbering::by_number(head / 16777216, head / 65536 % 256, arguments_in(line))
}

// Writes an answer's line, TEXT_LENGTH bytes, into out from index `at` on.
// Kept: `at` beside out, since this public function's clause `written at ..` names it; so does that of `write_bad`.
pub fn write_answer(answer: Answer, out: &mut [u8], at: usize)
    requires { at + text_length ≤ length out.old }
    ensures { out.new ≡ written at (answer_text answer) out.old }
{
    put_digits(out, at, 2, answer.refusal);
    put_digits(out, at + 2, 8, answer.first);
    put_digits(out, at + 10, 8, answer.second);
    put_digits(out, at + 18, 8, answer.third);
    out[at + 26] = LINE_FEED;
}

// Writes the text of a line that is no frame, BAD_LENGTH bytes, into out from index `at` on.
pub fn write_bad(out: &mut [u8], at: usize)
    requires { at + bad_length ≤ length out.old }
    ensures { out.new ≡ written at bad_text out.old }
{
    out[at..at + BAD_LENGTH].copy_from_slice(b"ff\n");
}

// The arguments in a line of digits.
// Kept: a `for`, since of `array::from_fn` over the captured line nothing is known (tried).
fn arguments_in(line: &[u8]) -> [u32; ARGUMENTS]
    requires { (length line.now ≡ frame_length) × T (all_digits line.now) }
    ensures { result ≡ arguments_to line.now frame_arguments }
{
    let mut arguments = [0; ARGUMENTS];
    for (k, argument) in arguments.iter_mut().enumerate() {
        *argument = word_at(line, 4 + 8 * k);
    }
    arguments
}

// Whether the bytes of a line are digits.
// Speed: it goes to its end, so that the bytes are tested side by side; `all` would leave at the first that is none.
#[tactic(auto, using(crate::proofs::Laws::digits_next), unfolding(crate::specs::Digits::all_digits))]
fn all_digits(line: &[u8]) -> bool
    ensures { result ≡ all_digits line.now }
{
    let mut all = true;
    for b in line {
        all &= is_digit(*b);
    }
    all
}

#[tactic(auto, unfolding(crate::specs::Digits::digit, plans::specs::Limits::within))]
fn is_digit(b: u8) -> bool
    ensures { result ≡ digit b }
{
    matches!(b, b'0'..=b'9' | b'a'..=b'f')
}

// The number that the eight digits of line from index `at` on stand for.
//
// Speed: they are worked on side by side, in the bytes of one number: each digit's value first, and then the values of two, of four
// and of all eight. On random frames the program takes 1.3 times as long digit by digit, more than twice as long with a branch for letters.
fn word_at(line: &[u8], at: usize) -> u32
    requires { (at + word_digits ≤ length line.now) × T (all_digits (part at word_digits line.now)) }
    ensures { result ≡ hex_value (part at word_digits line.now) }
{
    let text = little::get::<u64>(line, at);
    let ones = (text & 0x0f0f_0f0f_0f0f_0f0f) + ((text / 64) & 0x0101_0101_0101_0101) * 9;
    let twos = (ones * 16 + ones / 256) & 0x00ff_00ff_00ff_00ff;
    let fours = (twos * 256 + twos / 65536) & 0x0000_ffff_0000_ffff;
    ((fours * 65536 + fours / 4294967296) % 4294967296) as u32
}

// Writes the last `width` digits of n into out from index `at` on.
// Kept: digits by index: no plainer, since `write!` with `{:08x}` needs a `fmt::Write` of our own over the buffer, and its proof.
fn put_digits(out: &mut [u8], at: usize, width: usize, n: u32)
    requires { at + width ≤ length out.old }
    ensures { out.new ≡ written at (digits_of width n) out.old }
{
    let mut rest = n;
    for i in (0..width).rev() {
        out[at + i] = digit_of(rest % 16);
        rest /= 16;
    }
}

// Kept: `char::from_digit` answers an Option of a char, which has to be unwrapped and made a byte again.
#[tactic(auto, unfolding(crate::specs::Digits::digit_of))]
fn digit_of(n: u32) -> u8
    requires { n < 16 }
    ensures { result ≡ digit_of n }
{
    if n < 10 {
        b'0' + n as u8
    } else {
        b'a' + (n - 10) as u8
    }
}
