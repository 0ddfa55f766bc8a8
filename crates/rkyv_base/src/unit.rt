//! The unit value, which has no bytes in an archive.
//!
//! It is the value type of a set, whose entries are therefore only its keys.

ghost use Rattle.rkyv_base.specs.{unit_format, unit_represents, unit_spec};
ghost use Rattle.rkyv_base.specs.Lemmas.Empty.{unit_element, unit_is_format, unit_local};

use crate::archive::{Archive, ResolveResult, Serialize, WriteResult};
use crate::element::{Element, HasSpec, PartRange, Represents};
use crate::errors::VerifyError;
use crate::width::Width;
use crate::writer::Writer;
use std::alloc::Global;

impl HasSpec for () {
    ghost spec = { unit_spec };

    ghost laws = { unit_element };
}

impl Element for () {
    #[inline]
    fn size() -> usize {
        0
    }

    #[inline]
    fn align() -> usize {
        1
    }

    #[inline]
    fn check(_bytes: &[u8], _pos: u64, range: PartRange) -> Result<PartRange, VerifyError> {
        Ok(range)
    }
}

impl Represents<()> for () {
    ghost represents = { unit_represents };

    ghost local = { unit_local };
}

impl<W: Width> Archive<W> for () {
    type Archived = ();

    type Resolver = ();

    ghost format = { unit_format };

    #[inline]
    fn resolve(&self, _resolver: (), _pos: u64, _out: &mut [u8]) -> ResolveResult {
        Ok(())
    }

    ghost laws = { unit_is_format };
}

impl<S: Writer, W: Width> Serialize<S, W> for () {
    #[inline]
    fn serialize(&self, _alloc: Global, _serializer: &mut S) -> WriteResult<(), S> {
        Ok(())
    }
}
