//! Tests of keys that are archived, and looked up by themselves.
ghost use Rattle.std.specs.Prelude.{◌≡◌, IfOk, true};

use rkyv_base::{
    Narrow, NoMemory, Serialize, VecWriter, Wide, Width, WriteError, access_in, to_bytes_in,
};
use rkyv_keys::{KeyElement, NativeKey};
use std::alloc::Global;

// Archives a key. Returns `true` if the key fits its archived form. The contract is for all keys.
fn finds_itself<W: Width, V: Serialize<VecWriter, W> + NativeKey<V::Archived>>(
    alloc: Global,
    key: &V,
) -> Result<bool, WriteError<NoMemory>>
where
    V::Archived: KeyElement,
    ensures { IfOk result (λ found. found ≡ true) }
{
    let bytes = to_bytes_in::<W, V>(alloc, key)?;
    match access_in::<W, V::Archived>(bytes.as_slice()) {
        Ok(root) => Ok(key.same(root)),
        Err(_) => Ok(false),
    }
}

// Returns the same for an owned text.
fn text_finds_itself(alloc: Global) -> Option<bool> {
    let text = String::from_str(alloc, "wonderful text").ok()?;
    finds_itself::<Wide, String>(alloc, &text).ok()
}

#[test]
fn keys_find_themselves(rt: HostRuntime) {
    let alloc = rt.alloc();
    expect_eq!(rt; finds_itself::<Narrow, u32>(alloc, &7).ok(), Some(true));
    expect_eq!(rt; finds_itself::<Wide, (char, (i8, bool))>(alloc, &('x', (-1, true))).ok(),
        Some(true));
    expect_eq!(rt; finds_itself::<Narrow, &str>(alloc, &"hello").ok(), Some(true));
    expect_eq!(rt; finds_itself::<Narrow, (&str, u8)>(alloc, &("wonderful", 7)).ok(), Some(true));
    expect_eq!(rt; text_finds_itself(alloc), Some(true));
    expect_eq!(rt; finds_itself::<Wide, ((), u64)>(alloc, &((), 7)).ok(), Some(true));
}
