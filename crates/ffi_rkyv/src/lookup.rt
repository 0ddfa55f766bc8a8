//! Lookups of keys in any collection.

ghost use Rattle.ffi_calls.specs.{IsHandleOf, StoresLookups, collection_at, types_of};

use ffi_calls::any_value::LookedUp;
use ffi_calls::collection::Handle;
use ffi_calls::lookup::get;

/// Looks up keys of a collection, each in `found.value`, and stores their results there.
///
/// A result is a status, and the value and the index of the pair. A set has the unit value. The
/// index is 0 in a hash map and in a hash set.
///
/// # Requires
///
/// - `handle` is a handle of the archive.
///
/// # Errors
///
/// The status is 0, or one of these. Then `found` is unchanged.
///
/// - 3: the keys are numbers or characters, and none has the number of the key.
/// - 4: the keys are texts, and the bytes of the key aren't UTF-8.
/// - 1: the lookup doesn't find the key.
#[unsafe(no_mangle)]
pub extern "C" fn hk_c_get<'a>(archive: &'a [u8], handle: &'a Handle, lookups: &mut [LookedUp<'a>])
    requires { IsHandleOf archive.now handle.now }
    ensures { StoresLookups (types_of (collection_at handle.now)) archive.now lookups.old
        lookups.new }
{
    get(archive, handle, lookups)
}
