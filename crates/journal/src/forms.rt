ghost use Rattle.std.specs.Prelude.{◌≡◌, ◌≤◌, true, slice_index_or};
ghost use Rattle.journal.specs.Forms.{forms, form, known, size};

use crate::form::Form;

// The forms of records by bit map, for the writer and the reader alike. No record begins with 2 or 3.
static FORMS: [Option<Form>; 8] = [
    Some(Form {
        key: false,
        version: false,
        value: false,
        length: 0,
    }),
    Some(Form {
        key: true,
        version: false,
        value: false,
        length: 6,
    }),
    None,
    None,
    Some(Form {
        key: false,
        version: false,
        value: true,
        length: 0,
    }),
    Some(Form {
        key: true,
        version: false,
        value: true,
        length: 6,
    }),
    Some(Form {
        key: false,
        version: true,
        value: true,
        length: 6,
    }),
    Some(Form {
        key: true,
        version: true,
        value: true,
        length: 12,
    }),
];

// The row of a bit map in the table, if it has one.
fn row(map: u8) -> Option<Form>
    ensures { result ≡ slice_index_or forms map None }
{
    if (map as usize) < FORMS.len() {
        FORMS[map as usize]
    } else {
        None
    }
}

// The form of a record that begins with the bit map.
pub(crate) fn form_of(map: u8) -> Form
    requires { known map ≡ true }
    ensures { result ≡ form map }
{
    row(map).unwrap()
}

// How long the record is that begins with the bit map, where values are `w` bytes wide. (That `w` is at most 64 is asked for
// here, by `Records::new`, and by `compact` and `pack`; `NewRecord::of_put` asks it of the length of its value. Bytes alone do
// not say it. A type for widths would be a number, taken out again at each sum and slice.)
pub(crate) fn size_of(map: u8, w: usize) -> usize
    requires narrow { w ≤ 64 }
    requires known { known map ≡ true }
    ensures { result ≡ size w map }
{
    let f = form_of(map);
    1 + f.length + if f.value { w } else { 0 }
}
