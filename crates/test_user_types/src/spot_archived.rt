//! The archived form of spots.
ghost use Rattle.rkyv_base.specs.{AtView, IsValidView};
ghost use Rattle.test_user_types.specs.Spot.{SpotRepresents, spot_format, spot_spec};
ghost use Rattle.test_user_types.specs.Lemmas.Spot.{spot_element, spot_is_format, spot_local};

use crate::spot::Spot;
use rkyv_base::{
    Archive, Element, Entry, EntryResolver, HasSpec, PartRange, Represents, ResolveResult,
    Serialize, VerifyError, View, Width, WriteResult, Writer,
};
use std::alloc::Global;

/// A spot in an archive.
pub struct ArchivedSpot;

impl HasSpec for ArchivedSpot {
    ghost spec = { spot_spec };

    ghost laws = { spot_element };
}

impl Element for ArchivedSpot {
    fn size() -> usize {
        Entry::<i32, i32>::size()
    }

    fn align() -> usize {
        Entry::<i32, i32>::align()
    }

    fn check(bytes: &[u8], pos: u64, range: PartRange) -> Result<PartRange, VerifyError> {
        Entry::<i32, i32>::check(bytes, pos, range)
    }
}

impl Represents<Spot> for ArchivedSpot {
    ghost represents = { SpotRepresents };

    ghost local = { spot_local };
}

impl<W: Width> Archive<W> for Spot {
    type Archived = ArchivedSpot;

    type Resolver = EntryResolver<(), ()>;

    ghost format = { spot_format };

    fn resolve(&self, resolver: EntryResolver<(), ()>, pos: u64, out: &mut [u8]) -> ResolveResult {
        let pair = (self.x, self.y);
        <(i32, i32) as Archive<W>>::resolve(&pair, resolver, pos, out)
    }

    ghost laws = { spot_is_format };
}

impl<S: Writer, W: Width> Serialize<S, W> for Spot {
    fn serialize(
        &self,
        alloc: Global,
        serializer: &mut S,
    ) -> WriteResult<EntryResolver<(), ()>, S> {
        let pair = (self.x, self.y);
        <(i32, i32) as Serialize<S, W>>::serialize(&pair, alloc, serializer)
    }
}

/// Returns the spot.
///
/// # Requires
///
/// - A valid spot is at the position of the view.
pub fn spot_of(spot: View<'_, ArchivedSpot>) -> Spot
    requires { IsValidView spot_spec spot }
    ensures { AtView SpotRepresents spot.entry result }
{
    let pair = spot.at::<Entry<i32, i32>>(spot.pos());
    Spot {
        x: pair.key().to_native(),
        y: pair.value().to_native(),
    }
}
