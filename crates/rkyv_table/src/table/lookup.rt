//! Lookups: finding an item of a table by its hash and a comparison.
//!
//! - `get_with` returns a view of the item, and `get_pos_with` its position.
//! - `get_counted` also counts the strides that are read.
//! - `get_by` takes the kind of group, and the others use `simd::paired::Group`.
//!
//! A lookup in an untrusted table may read all of its control bytes. In any table it reads
//! at most ceil(capacity / 16) strides, each of sixteen control bytes.
ghost use Rattle.rkyv_base.specs.declared.view.View.{View};
ghost use Rattle.rkyv_scan.specs.{generic_kind};
ghost use Rattle.rkyv_table.specs.{CanCompare, CountsStrides, FindsItem, FindsItemPos, IsFullIn};
ghost use Rattle.rkyv_table.specs.{IsItemIn};

use crate::controls::find::{Strides, find_from};
use crate::table::ArchivedHashTable;
use rkyv_base::{Element, View, Width, found_pos};
use rkyv_scan::GroupKind;
use rkyv_scan::simd::paired;

impl<'a, T: Element, W: Width> ArchivedHashTable<'a, T, W> {
    #[inline]
    fn get_counted_by<G: GroupKind, F: Fn(View<'a, T>) -> bool>(
        self,
        hash: u64,
        cmp: F,
        strides: &mut Strides,
    ) -> Option<View<'a, T>>
        requires callable { CanCompare (F.pre cmp) self }
        ensures found { FindsItem (F.post cmp) G.kind self.entry hash result }
        ensures counts { CountsStrides (F.post cmp) G.kind self.entry hash
            strides.old strides.new }
    {
        let bucket = find_from::<G, _>(
            self.controls(),
            self.header.cap,
            self.header.len,
            hash,
            self.start(hash),
            |bucket|
                requires full { IsFullIn self bucket }
                requires callable { CanCompare (F.pre cmp) self }
                ensures { (v : View T) × IsItemIn self.entry bucket v × F.post cmp v result }
            { cmp(self.item(bucket)) },
            strides,
        );
        Some(self.item(bucket?))
    }

    /// Returns an item that the comparison accepts, in a lookup under `hash`, or `None`.
    ///
    /// The comparison is called only with items of the table, maybe twice with one.
    ///
    /// If the comparison depends only on the position of an item, the control bytes decide
    /// which item it is. In a written table, it is the first accepted item in insertion order
    /// if each accepted item is under `hash`.
    ///
    /// A lookup in an untrusted table may read all of its control bytes.
    ///
    /// # Examples
    ///
    /// ```rust
    /// // Returns the value of a key, which is looked up under its hash.
    /// fn value_of(archive: &[u8], hash: u64, key: i8) -> Result<Option<i8>, VerifyError> {
    ///     let table = ArchivedHashTable::of(access::<TableOf<Entry<i8, i8>>>(archive)?);
    ///     match table.get_with(hash, |pair| pair.key().to_native() == key) {
    ///         Some(pair) => Ok(Some(pair.value().to_native())),
    ///         None => Ok(None),
    ///     }
    /// }
    ///
    /// let found = value_of(&four_pairs(), hash_of_i8(5), 5).ok();
    /// assert_eq!(rt; found, Some(Some(6)));
    /// ```
    #[inline]
    pub fn get_with<F: Fn(View<'a, T>) -> bool>(self, hash: u64, cmp: F) -> Option<View<'a, T>>
        requires callable { CanCompare (F.pre cmp) self }
        ensures { FindsItem (F.post cmp) generic_kind self.entry hash result }
    {
        self.get_counted_by::<paired::Group, F>(hash, cmp, &mut Strides::new())
    }

    /// Looks up as `get_with` does, but at the indices that the kind of group `G` marks.
    ///
    /// Both find the same item in a written table if all accepted items are under `hash`. In others
    /// they may differ.
    #[inline]
    pub fn get_by<G: GroupKind, F: Fn(View<'a, T>) -> bool>(
        self,
        hash: u64,
        cmp: F,
    ) -> Option<View<'a, T>>
        requires callable { CanCompare (F.pre cmp) self }
        ensures { FindsItem (F.post cmp) G.kind self.entry hash result }
    {
        self.get_counted_by::<G, F>(hash, cmp, &mut Strides::new())
    }

    /// Looks up as `get_with` does, and returns the position of the item.
    #[inline]
    pub fn get_pos_with<F: Fn(View<'a, T>) -> bool>(self, hash: u64, cmp: F) -> Option<u64>
        requires callable { CanCompare (F.pre cmp) self }
        ensures { FindsItemPos (F.post cmp) generic_kind self.entry hash result }
    {
        found_pos(self.get_with(hash, cmp))
    }

    /// Looks up as `get_with` does, and counts the strides of sixteen control bytes that it reads.
    #[inline]
    pub fn get_counted<F>(self, hash: u64, cmp: F, strides: &mut Strides) -> Option<View<'a, T>>
    where
        F: Fn(View<'a, T>) -> bool,
        requires callable { CanCompare (F.pre cmp) self }
        ensures found { FindsItem (F.post cmp) generic_kind self.entry hash result }
        ensures counts { CountsStrides (F.post cmp) generic_kind self.entry hash
            strides.old strides.new }
    {
        self.get_counted_by::<paired::Group, F>(hash, cmp, strides)
    }
}
