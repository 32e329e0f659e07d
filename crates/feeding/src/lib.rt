// Frames fed in pieces, paper 01, "Hexadecimal frames": the calls of the lines are made on a lent store, their text is written into
// a lent buffer. A piece may be cut anywhere, so the bytes of a line that has not ended are kept from piece to piece in a `Line`.
// Wherever it is cut, the texts of an input's pieces and the text at its end, one behind the other, are the program's output: by the
// claim frame_text::claims::input_is_fed_in_pieces, each piece being fed to the state that the one before left.
#![tactic(auto)]

ghost use Rattle.std.specs.Prelude.{◌≡◌, [], ◌∷◌, ◌+◌, ◌*◌, ◌≤◌, length, Some};
ghost use Rattle.frame_text.specs.Answers.{text_length};
ghost use Rattle.frame_text.specs.Program.{on_frame, on_line};
ghost use Rattle.frame_text.specs.Feeding.{at_end};
ghost use Rattle.feeding.specs.Fed.{held, Answered, FedBy, lies_whole};

mod line;

use frame_text::{BAD_LENGTH, FRAME_LENGTH, LINE_FEED, TEXT_LENGTH};
pub use line::{LINE_ROOM, Line};
use numbering::Frame;

// Feeds a piece. The text goes to the front of `out`; the answer is how many bytes of text there are.
// Kept: store, line and out as parameters of their own, since the clauses of `feed` and `finish` name what each holds after.
//
// Speed: a frame that lies whole in the piece, with no line begun before it, is not copied: its call is made from where it lies. Byte by
// byte the program takes 1.2 times as long on two million random frames.
#[tactic(auto, using(crate::proofs::Laws::feeds))]
pub fn feed(store: &mut [u8], line: &mut Line, piece: &[u8], out: &mut [u8]) -> usize
    requires { text_length * length piece.now ≤ length out.old }
    ensures { FedBy (held store.old line.old) piece.now out.old result store.new line.new out.new }
{
    let mut wrote = 0;
    let mut rest = piece;
    while let [byte, after @ ..] = rest {
        let room = &mut out[wrote..];
        if lies_whole(line, rest) {
            if let Some(frame) = frame_text::parse(&rest[..FRAME_LENGTH]) {
                wrote += make_call(store, frame, room);
                rest = &rest[LINE_ROOM..];
                continue;
            }
        }
        wrote += take_byte(store, line, *byte, room);
        rest = after;
    }
    wrote
}

// The end of the input, with the bytes of a line that has not ended: "bytes after the last line feed are a line too, if there are any".
// Answers how many bytes of text it wrote.
pub fn finish(store: &mut [u8], line: &[u8], out: &mut [u8]) -> usize
    requires { text_length ≤ length out.old }
    ensures { Answered (at_end (held store.old line.now)) out.old result store.new out.new }
{
    if line.len() == 0 {
        return 0;
    }
    end_line(store, line, out)
}

// Whether a line of a frame's length lies whole in front of what is left of a piece, with no line begun before it.
#[tactic(auto, unfolding(crate::specs::Fed::lies_whole))]
fn lies_whole(line: &Line, rest: &[u8]) -> bool
    ensures { result ≡ lies_whole line.now rest.now }
{
    line.is_empty() && rest.len() >= LINE_ROOM && rest[FRAME_LENGTH] == LINE_FEED
}

// Feeds one byte; answers how many bytes of text it wrote.
fn take_byte(store: &mut [u8], line: &mut Line, byte: u8, out: &mut [u8]) -> usize
    requires { text_length ≤ length out.old }
    ensures { FedBy (held store.old line.old) (byte ∷ []) out.old result store.new line.new out.new }
{
    if byte != LINE_FEED {
        line.keep(byte);
        return 0;
    }
    let wrote = end_line(store, line.bytes(), out);
    line.clear();
    wrote
}

// A line ended: makes its call, if it is a frame, and writes its text. Answers how many bytes of text it wrote.
#[tactic(auto, using(frame_text::proofs::Laws::length_bad), unfolding(frame_text::specs::Program::on_line, frame_text::specs::Program::on_frame))]
fn end_line(store: &mut [u8], line: &[u8], out: &mut [u8]) -> usize
    requires { text_length ≤ length out.old }
    ensures { Answered (on_line store.old line.now) out.old result store.new out.new }
{
    if let Some(frame) = frame_text::parse(line) {
        return make_call(store, frame, out);
    }
    frame_text::write_bad(out, 0);
    BAD_LENGTH
}

// Makes a frame's call and writes its answer; answers how many bytes of text that is.
// Kept: room for one text is required in four: the buffer is lent (fixed memory), and only `feed` knows how much of it is left.
#[tactic(auto, using(frame_text::proofs::Laws::length_answer), unfolding(frame_text::specs::Program::on_frame))]
fn make_call(store: &mut [u8], frame: Frame, out: &mut [u8]) -> usize
    requires { text_length ≤ length out.old }
    ensures { Answered (on_frame store.old (Some frame)) out.old result store.new out.new }
{
    let answer = listening::make(store, frame.stream, frame.call);
    frame_text::write_answer(answer, out, 0);
    TEXT_LENGTH
}
