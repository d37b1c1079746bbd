ghost use Rattle.versioning.specs.Families.{EitherSound, either_kind, either_packed, either_unpacked};
ghost use Rattle.versioning.specs.FamiliesLemmas.{either_unpacks, either_packs};

use super::Family;
use catalogue::row::Row;

// A value of one of two families; or, of the words for their kinds, one of the two. Not a Result: neither is a failure.
#[derive(Clone, Copy)]
pub enum Either<V, W> {
    First(V),
    Second(W),
}

// Two families are one, of the values of either.
impl<V: Family, W: Family> Family for Either<V, W> {
    type Which = Either<V::Which, W::Which>;

    ghost sound = { EitherSound V.Family.sound W.Family.sound };

    ghost own = { either_kind V.Family.own W.Family.own };

    ghost packed = { either_packed V.Family.packed W.Family.packed };

    ghost unpacked = { either_unpacked V.Family.unpacked W.Family.unpacked };

    ghost unpacks = { either_unpacks V.Family.packed W.Family.packed V.Family.unpacked W.Family.unpacked V.Family.own W.Family.own V.Family.sound W.Family.sound V.Family.unpacks W.Family.unpacks };

    ghost packs = { either_packs V.Family.packed W.Family.packed V.Family.unpacked W.Family.unpacked V.Family.packs W.Family.packs };

    fn pack(self) -> Row {
        match self {
            Either::First(value) => value.pack(),
            Either::Second(value) => value.pack(),
        }
    }

    fn unpack(kind: Either<V::Which, W::Which>, row: Row) -> Option<Either<V, W>> {
        match kind {
            Either::First(kind) => {
                let value = V::unpack(kind, row)?;
                Some(Either::First(value))
            }
            Either::Second(kind) => {
                let value = W::unpack(kind, row)?;
                Some(Either::Second(value))
            }
        }
    }
}
