// The program: frames from standard input, over a fresh store, to answers on standard output. What came is answered before more is
// read, so that it works on a pipe that stays open; its memory does not grow with the input.
#![tactic(auto)]

ghost use Rattle.std.specs.Prelude.{◌≡◌, [], length, IfErr};
ghost use Rattle.model.specs.Store.{fresh};
ghost use Rattle.feeding.specs.Fed.{held};
ghost use Rattle.frames.specs.Turns.{Moved, Lent, on_read, TurnTaken, Ran};

use feeding::Line;
use model::sizes::STORE_LENGTH;
use std::fmt;
use std::io::Read;

// As much as one read takes.
const PIECE_LENGTH: usize = 16384;

// Room for the text of a whole piece, since no byte prints more than a line.
const OUT_LENGTH: usize = frame_text::TEXT_LENGTH * PIECE_LENGTH;

// What a turn leaves: how many bytes of text are to be printed, and whether there may be more input or it came to its end.
#[derive(Clone, Copy)]
enum Turn {
    More(usize),
    Last(usize),
}

// Why the program stops before all of its input is answered and written: the input cannot be read, or the output cannot be written,
// with input that was not read or with none.
#[derive(Clone, Copy)]
enum Failure {
    Input,
    Output,
    LastOutput,
}

impl fmt::Display for Failure {
    fn fmt<W: fmt::Write>(&self, f: &mut fmt::Formatter<W>) -> fmt::Result {
        f.write_str(match self {
            Failure::Input => "frames: the input cannot be read",
            Failure::Output | Failure::LastOutput => "frames: the output cannot be written",
        })
    }
}

fn main(rt: HostRuntime) {
    let mut store = [0u8; STORE_LENGTH];
    let mut line = Line::new();
    let mut piece = [0u8; PIECE_LENGTH];
    let mut out = [0u8; OUT_LENGTH];
    if let Err(failure) = run(&rt, &mut store, &mut line, &mut piece, &mut out) {
        // where standard error cannot be written either, there is nobody to tell
        let _ = rt.eprintln(failure);
    }
}

// Reads, answers and prints, turn after turn. A proved loop has to end, and nothing says that the input does: so many turns no run
// uses up.
fn run(
    rt: &HostRuntime,
    store: &mut [u8],
    line: &mut Line,
    piece: &mut [u8],
    out: &mut [u8],
) -> Result<(), Failure>
    requires { (store.old ≡ fresh) × (line.old ≡ []) × Lent piece.old out.old }
    ensures { Ran result store.new line.new }
{
    for _ in 0..u64::MAX {
        let got = read_piece(rt, piece);
        match answer(store, line, piece, got, out)? {
            Turn::More(wrote) => print(rt, &out[..wrote], Failure::Output)?,
            Turn::Last(wrote) => return print(rt, &out[..wrote], Failure::LastOutput),
        }
    }
    Err(Failure::Input)
}

// Reads once: how many bytes of input stand in front of the piece then, 0 at the end of the input.
fn read_piece(rt: &HostRuntime, piece: &mut [u8]) -> Result<usize, Failure>
    ensures { Moved (length piece.new) result }
{
    rt.stdin().read(piece).map_err(|_| Failure::Input)
}

// Writes a text to standard output, or answers the failure that this is.
fn print(rt: &HostRuntime, text: &[u8], failure: Failure) -> Result<(), Failure>
    ensures { IfErr result (λ e. e ≡ failure) }
{
    rt.write_all(text).map_err(|_| failure)
}

// Answers what a read brought to the front of a piece; at the end of the input, the last line.
#[tactic(auto, unfolding(crate::specs::Turns::on_read))]
fn answer(
    store: &mut [u8],
    line: &mut Line,
    piece: &[u8],
    got: Result<usize, Failure>,
    out: &mut [u8],
) -> Result<Turn, Failure>
    requires { Lent piece.now out.old × Moved (length piece.now) got }
    ensures { TurnTaken (on_read (held store.old line.old) piece.now got) out.old result store.new line.new out.new }
{
    let n = got?;
    if n == 0 {
        let wrote = feeding::finish(store, line.bytes(), out);
        return Ok(Turn::Last(wrote));
    }
    let wrote = feeding::feed(store, line, &piece[..n], out);
    Ok(Turn::More(wrote))
}
