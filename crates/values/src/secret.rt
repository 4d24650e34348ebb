ghost use Rattle.std.specs.Prelude.{◌≡◌, ℕ, ◌-◌, ◌≤◌, List, [], ◌++◌, length, replicate, refl, ◌==◌};
ghost use Rattle.std.specs.Cmp.Rules.{comparing};
ghost use Rattle.std.specs.Cmp.Lexicographic.{pointwise};
ghost use Rattle.std.specs.Option.{option_map};
ghost use Rattle.values.specs.Refusals.{outcome, numbered};
ghost use Rattle.values.specs.Sheets.{read_answer};
ghost use Rattle.values.specs.Secrets.{contents, secret_of, make_secret, secret_code, secret_decoded};
ghost use Rattle.values.specs.Coding.{contents_short, length_code, decoded_code};
ghost use Rattle.std.proofs.Common.{rules};

use crate::kind::Kind;
use crate::refusal::Refusal;

// A short text or password: its first `len` bytes. The record has no invariant, so every record means something:
// bytes past the length count as zeros, and a length above 48 means the blank secret. (Values are copied and lie in
// sheets of fixed size, so the bytes are an array with a length beside it, and no `Vec`.)
#[derive(Clone, Copy)]
pub struct Secret {
    pub len: u8,
    pub bytes: [u8; 48],
}

// Copies `from` into `to`, with zeros after it.
fn copy_padded(to: &mut [u8], from: &[u8])
    requires { length from.now ≤ length to.old }
    ensures { to.new ≡ from.now ++ replicate (length to.old - length from.now) 0 }
{
    let (text, rest) = to.split_at_mut(from.len());
    text.copy_from_slice(from);
    rest.fill(0);
}

impl Secret {
    // The secret of these bytes, of which there are at most 48.
    pub fn new(text: &[u8]) -> Result<Secret, Refusal>
        ensures { numbered result ≡ make_secret text.now }
    {
        if text.len() > 48 {
            return Err(Refusal::SecretTooLong);
        }
        let mut bytes = [0; 48];
        copy_padded(&mut bytes, text);
        Ok(Secret {
            len: text.len() as u8,
            bytes,
        })
    }

    // The bytes that the record means.
    pub fn as_bytes(&self) -> &[u8]
        ensures { result.now ≡ contents self.now }
    {
        self.bytes.get(..self.len as usize).unwrap_or(&[])
    }
}

// Two secrets are equal where they mean the same bytes. (A derived `==` would look at bytes past the length too.)
impl PartialEq for Secret {
    ghost eq = { λ a b. pointwise ◌==◌ (contents a) (contents b) };

    ghost laws = { Prim.search (comparing, rules) };

    fn eq(&self, other: &Secret) -> bool {
        self.as_bytes() == other.as_bytes()
    }
}

impl Eq for Secret {
    ghost laws = { Prim.search (comparing, rules) };
}

impl Kind for Secret {
    const WIDTH: usize = 49;

    ghost WIDTH = { 49 };

    ghost Meaning = { List ℕ };

    ghost means = { contents };

    ghost code = { λ s. secret_code (contents s) };

    ghost coded = { secret_code };

    ghost decoded = { secret_decoded };

    ghost nothing = { secret_of [] };

    ghost width = { Prim.search rules };

    ghost whole = { λ v. length_code (contents v) (contents_short v) };

    ghost follows = { λ v. refl };

    ghost back = { λ v. decoded_code (contents v) (contents_short v) };

    fn blank() -> Secret {
        Secret {
            len: 0,
            bytes: [0; 48],
        }
    }

    #[tactic(auto, using(crate::proofs::SecretSheets::written_secret))]
    fn write(&self, sheet: &mut [u8]) -> Result<(), Refusal> {
        if sheet.len() != Self::WIDTH {
            return Err(Refusal::UnfitBytes);
        }
        let text = self.as_bytes();
        sheet[0] = text.len() as u8;
        copy_padded(&mut sheet[1..49], text);
        Ok(())
    }

    // The bytes of the record past its length are zeros.
    fn read(sheet: &[u8]) -> Result<Secret, Refusal>
        ensures answer { outcome contents result ≡ read_answer 49 secret_decoded sheet.now }
        ensures zeroed { numbered result ≡ read_answer 49 (λ bs. option_map secret_of (secret_decoded bs)) sheet.now }
    {
        if sheet.len() != Self::WIDTH || sheet[0] > 48 {
            return Err(Refusal::UnfitBytes);
        }
        Secret::new(&sheet[1..sheet[0] as usize + 1])
    }
}
