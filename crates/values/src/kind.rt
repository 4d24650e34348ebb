ghost use Rattle.std.specs.Prelude.{◌≡◌, ℕ, ◌≤◌, List, length, Some, Option};
ghost use Rattle.values.specs.Refusals.{outcome, numbered};
ghost use Rattle.values.specs.Sheets.{write_answer, write_sheet, read_answer};

use crate::refusal::Refusal;

// A kind of value that providers store: plain records, of which each means something, written as bytes of one width.
// Two values are the same where they mean the same.
pub trait Kind: Copy {
    // how many bytes a value is written as
    const WIDTH: usize;

    ghost WIDTH: { ℕ };

    // what a record means
    ghost Meaning: { Type 0 };

    ghost means: { Self → Meaning };

    // the bytes that a record is written as
    ghost code: { Self → List ℕ };

    // the bytes that a meaning is written as
    ghost coded: { Meaning → List ℕ };

    // the meaning of as many bytes as the kind is wide, if they have one
    ghost decoded: { List ℕ → Option Meaning };

    // the blank record
    ghost nothing: { Self };

    fn blank() -> Self
        ensures { result ≡ nothing };

    // Writes the value's bytes into a sheet of exactly the kind's width.
    fn write(&self, sheet: &mut [u8]) -> Result<(), Refusal>
        ensures answer { numbered result ≡ write_answer WIDTH sheet.old }
        ensures after { sheet.new ≡ write_sheet WIDTH (code self.now) sheet.old };

    // Reads a value from a sheet of exactly the kind's width.
    fn read(sheet: &[u8]) -> Result<Self, Refusal>
        ensures answer { outcome means result ≡ read_answer WIDTH decoded sheet.now };

    ghost width: { (1 ≤ WIDTH) × (WIDTH ≤ 64) };

    ghost whole: { (v : Self) → length (code v) ≡ WIDTH };

    // what is written follows from the meaning alone
    ghost follows: { (v : Self) → code v ≡ coded (means v) };

    // a value that is written and then read is the same value
    ghost back: { (v : Self) → decoded (code v) ≡ Some (means v) };
}
