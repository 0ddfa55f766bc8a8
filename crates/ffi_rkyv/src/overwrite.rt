//! The overwrite of a number in any map.

ghost use Rattle.ffi_calls.specs.{IsHandleOf, KeepsCollection, SetsIn, collection_at};

use ffi_calls::any_value::AnyValue;
use ffi_calls::collection::Handle;
use ffi_calls::overwrite::set_value;

/// Looks up a key of a hash map or of an index map, and overwrites its value in place.
///
/// The archive stays valid, and its header is unchanged.
///
/// # Requires
///
/// - `handle` is a handle of the archive.
///
/// # Errors
///
/// - 3: the keys are numbers or characters, and none has the number of the key.
/// - 4: the keys are texts, and the bytes of the key aren't UTF-8.
/// - 7: the values of the collection aren't numbers.
/// - 3: the new value has more bits than the values of the map.
/// - 1: the lookup doesn't find the key.
///
/// After an error no byte is changed.
#[unsafe(no_mangle)]
pub extern "C" fn hk_c_set(
    archive: &mut [u8],
    handle: &Handle,
    of: &AnyValue<'_>,
    number: u64,
) -> u32
    requires { IsHandleOf archive.old handle.now }
    ensures keeps { KeepsCollection (collection_at handle.now) archive.old archive.new }
    ensures sets { SetsIn (collection_at handle.now) archive.old of.now number result archive.new }
{
    set_value(archive, handle, *of, number)
}
