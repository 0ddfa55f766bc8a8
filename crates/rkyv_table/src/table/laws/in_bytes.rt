//! Laws of tables that are read, about only their bytes.
ghost use Rattle.rkyv_table.specs.{LooksUpInBytes};

use rkyv_base::{Element, View, Width};

/// States that each result of a lookup in a table is one of a lookup in the bytes of the table.
pub fn lookups_are_in_bytes<T: Element, W: Width, F: Fn(View<'_, T>) -> bool>()
    ensures { (cmp : _) → LooksUpInBytes T.HasSpec W.Word (F.post cmp) }
{}
