// Code letters and sample sizes: document 000 (ISO 28594), Tables 1 and 2.
ghost use Rattle.std.specs.Prelude.{◌≡◌, ◌≤◌, ◌<◌, map};
ghost use Rattle.plans.specs.Limits.{verification_levels};
ghost use Rattle.plans.specs.Tables.{row_of, table1, letters_in};

use crate::{LotSize, SampleSize, level};
use CodeLetter::{A, B, C, D, E};

// A code letter, in the order of Table 2's rows.
#[derive(Clone, Copy)]
enum CodeLetter {
    A,
    B,
    C,
    D,
    E,
}

// The verification level that a plan states, VL-1 to VL-7.
#[derive(Clone, Copy)]
pub struct VerificationLevel {
    pub number: u32,
    pub ghost in_range: { (1 ≤ number) × (number ≤ verification_levels) },
}

// Table 2, columns T, VL-7 to VL-1, R: its first row, and all of it.
const FIRST_ROW: [u32; 9] = [3250, 1290, 512, 200, 80, 32, 12, 5, 3];

const SAMPLE_SIZES: [[u32; 9]; 5] = [
    FIRST_ROW,
    [4096, 1625, 645, 256, 100, 40, 16, 6, 3],
    [5160, 2048, 810, 320, 128, 50, 20, 8, 3],
    [6500, 2580, 1024, 400, 160, 64, 25, 10, 4],
    [8192, 3250, 1290, 512, 200, 80, 32, 12, 5],
];

impl VerificationLevel {
    ghost use Rattle.plans.specs.Tables.{A as first_letter, row_of, code_letter, column_at, tabled, level_sample};
    ghost use Rattle.plans.specs.Severities.{reduced};

    // The sample that a lot asks for at this level and the severity in force.
    // Kept: a severity is a number, as a level is in `level`: `sample_size` answers for every number (`column_at`).
    #[tactic(auto, unfolding(crate::specs::Tables::table2, crate::specs::Tables::tabled, crate::specs::Tables::level_sample))]
    pub fn sample_size(self, severity: u32, size: LotSize) -> SampleSize
        ensures result_value { result.0 ≡ level_sample self.number severity size.0 }
        ensures range { result.0 ≤ size.0 }
    {
        let letter = self.code_letter(size);
        let tabled = SAMPLE_SIZES[letter as usize][self.column(severity)];
        SampleSize(size.0.min(tabled))
    }

    // The number in Table 2's first row, on reduced. Numbers grow down a column and to the left, so that no lot asks for less at this
    // level, unless it is smaller itself.
    // Speed: a constant table is built anew wherever it is indexed; read from all of Table 2, a long stream of level lots takes some
    // fifteen times as long.
    #[tactic(auto, unfolding(crate::specs::Tables::table2, crate::specs::Tables::tabled))]
    pub fn least_sample(self) -> SampleSize
        ensures { result.0 ≡ tabled first_letter (column_at self.number reduced) }
    {
        SampleSize(FIRST_ROW[self.column(level::REDUCED)])
    }

    // The code letter of a lot size.
    #[tactic(auto, unfolding(crate::specs::Tables::code_letter))]
    fn code_letter(self, size: LotSize) -> CodeLetter
        ensures { row_of result ≡ code_letter self.number size.0 }
    {
        let row = letters(size);
        row[7 - self.number as usize]
    }

    // The column of Table 2 at a severity.
    #[tactic(auto, unfolding(crate::specs::Tables::column_at))]
    fn column(self, severity: u32) -> usize
        ensures { (result ≡ column_at self.number severity) × (result < 9) }
    {
        let stated = self.number as usize;
        match severity {
            level::TIGHTENED => 7 - stated,
            level::REDUCED => 9 - stated,
            _ => 8 - stated,
        }
    }
}

// The row of Table 1 that a lot size lies in: its letters, VL-7 to VL-1. The table starts at 2.
#[tactic(auto, unfolding(crate::specs::Tables::table1, crate::specs::Tables::last_letters, crate::specs::Tables::letters_in))]
fn letters(size: LotSize) -> [CodeLetter; 7]
    ensures { map row_of result ≡ letters_in table1 size.0 }
{
    let n = size.0;
    match n {
        2..=170 => [A, A, A, A, A, A, A],
        171..=288 => [A, A, A, A, A, A, B],
        289..=544 => [A, A, A, A, A, B, C],
        545..=960 => [A, A, A, A, B, C, D],
        961..=1700 => [A, A, A, B, C, D, E],
        1701..=3072 => [A, A, B, C, D, E, E],
        3073..=5482 => [A, B, C, D, E, E, E],
        5483..=9720 => [B, C, D, E, E, E, E],
        9721..=17408 => [C, D, E, E, E, E, E],
        17409..=30960 => [D, E, E, E, E, E, E],
        30961..=4294967295 => [E, E, E, E, E, E, E],
        _ => [A, A, A, A, A, A, A],
    }
}
