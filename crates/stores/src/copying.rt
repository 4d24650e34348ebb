ghost use Rattle.std.specs.Prelude.{◌≡◌, ℕ, map, take, IfOk, OnErr};
ghost use Rattle.values.specs.Rank.{version_of};
ghost use Rattle.values.specs.Refusals.{numbered};
ghost use Rattle.stores.specs.Provider.{keys};
ghost use Rattle.stores.specs.Operations.{get_answer, list_sheet};
ghost use Rattle.stores.specs.Copying.{put_count, put_all, copy_answer, copy_after, copied_answer, PutEach};

use crate::store::Store;
use values::kind::Kind;
use values::refusal::Refusal;
use values::version::Key;

// Puts what `from` holds under each of its keys into `to`, until one finds no room. Answers how many were put.
fn copy_listed<V: Kind, S: Store<V>, T: Store<V>>(from: &S, to: &mut T, listed: &[Key]) -> usize
    requires { listed.now ≡ map version_of (keys (S.Store.provider from.now)) }
    ensures answer { result ≡ put_count (S.Store.provider from.now).cells (T.Store.provider to.old) }
    ensures after { T.Store.provider to.new ≡ put_all (S.Store.provider from.now).cells (T.Store.provider to.old) }
    ensures copied { (k : ℕ) → get_answer k (T.Store.provider to.new) ≡ copied_answer result (S.Store.provider from.now) (T.Store.provider to.old) k }
    ensures once { PutEach T.Store.puts (take result (S.Store.provider from.now).cells) to.old to.new }
{
    // The place at which the loop ends is the answer, so it is counted.
    for (i, key) in listed.iter().enumerate() {
        let Some(stored) = from.get(*key) else {
            return i;
        };
        if to.put(*key, stored.version, stored.value).is_err() {
            return i;
        }
    }
    listed.len()
}

// Copies every key of one provider into another, in ascending order, until one finds no room there. Answers how many
// were copied: the keys in so many first places of the sheet, which lists all keys of `from`. Each is put once. Where the
// sheet is too short, `to` and the sheet stay as they were.
pub fn copy<V: Kind, S: Store<V>, T: Store<V>>(
    from: &S,
    to: &mut T,
    sheet: &mut [Key],
) -> Result<usize, Refusal>
    ensures answer { numbered result ≡ copy_answer (S.Store.provider from.now) (T.Store.provider to.old) sheet.old }
    ensures after { T.Store.provider to.new ≡ copy_after (S.Store.provider from.now) (T.Store.provider to.old) sheet.old }
    ensures listed { sheet.new ≡ list_sheet (S.Store.provider from.now) sheet.old }
    ensures copied { IfOk result (λ n. (k : ℕ) → get_answer k (T.Store.provider to.new) ≡ copied_answer n (S.Store.provider from.now) (T.Store.provider to.old) k) }
    ensures once { IfOk result (λ n. PutEach T.Store.puts (take n (S.Store.provider from.now).cells) to.old to.new) }
    ensures refusal { OnErr result ((to.new ≡ to.old) × (sheet.new ≡ sheet.old)) }
{
    let count = from.list(sheet)?;
    Ok(copy_listed(from, to, &sheet[0..count]))
}
