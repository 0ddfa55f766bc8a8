//! A write in place, by key, in a hash map of texts to numbers.

ghost use Rattle.std.specs.Int.{w64};
ghost use Rattle.std.specs.Option.{is_some};
ghost use Rattle.std.specs.Prelude.{ℕ, ◌≡◌, IfOk, Ok, OnErr};
ghost use Rattle.rkyv_base.specs.{IsValidArchive, OpensNarrow, narrow_limit, unsigned};
ghost use Rattle.rkyv_keys.specs.{same_bytes, with_first};
ghost use Rattle.rkyv_collections.specs.{IsTextMap, SetsValueOfText, TextPairs, first_of_text};

use rkyv_base::access::access;
use rkyv_base::{HasSpec, Narrow, Text, VerifyError};
use rkyv_collections::map::in_place::set_value_of;
use rkyv_collections::{FxHasher64, HashMapOf};
use rkyv_table::table::laws::in_place::writes_keep_archives;

/// A map of texts to numbers in a narrow archive.
pub type Counts = HashMapOf<Text, u64>;

/// Writes the count of the pair that a lookup of the name finds, and returns whether there is one.
///
/// In the archive of a list, it is the first pair with the name. The archive then represents the
/// list with this count replaced. All other bytes are unchanged, and the archive stays valid.
/// After an error it is unchanged.
///
/// # Errors
///
/// - The error of the validation.
pub fn set_count(table: &mut [u8], name: &str, count: u64) -> Result<bool, VerifyError>
    ensures opened { OpensNarrow ⟦<Counts as HasSpec>⟧.spec table.old result }
    ensures unchanged { OnErr result (table.new ≡ table.old) }
    ensures kept { IfOk result
        (λ _. IsValidArchive narrow_limit ⟦<Counts as HasSpec>⟧.spec table.new) }
    ensures written { IfOk result
        (SetsValueOfText (unsigned w64) name.now count table.old table.new) }
    ensures found { (pairs : TextPairs ℕ) → IsTextMap (unsigned w64) table.old pairs
        → result ≡ Ok (is_some (first_of_text name.now pairs)) }
    ensures listed { (pairs : TextPairs ℕ) → IsTextMap (unsigned w64) table.old pairs
        → IsTextMap (unsigned w64) table.new
        (with_first (λ other. same_bytes name.now other.now) count pairs) }
{
    writes_keep_archives::<Counts, Narrow>();
    let root = access::<Counts>(&*table)?.pos();
    Ok(set_value_of::<&str, Text, u64, FxHasher64, Narrow>(table, root, &name, count))
}
