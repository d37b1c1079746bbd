#![tactic(auto)]

// Stores piled on one another in several orders: what was put is read back.
#[cfg(test)]
mod tests {
    use catalogue::kind::counter::Counter;
    use catalogue::kind::tape::Tape;
    use catalogue::kind::{Kind, read_as};
    use catalogue::refusal::Refusal;
    use catalogue::replicas::Replicas;
    use catalogue::row::Row;
    use catalogue::store::Store;
    use layers::cache::Cache;
    use layers::numbers::Numbers;
    use layers::renumbering::Renumbering;
    use std::alloc::Global;
    use std::process::Abort;
    use std::test::Fail;
    use stores::change_list::ChangeList;
    use stores::image::Image;
    use stores::memory::Memory;

    fn memory(heap: Global, rows: usize) -> Result<Memory, Fail> {
        Memory::new(vec![in heap; Row::default(); rows]?).map_err(|_| Fail::new("refused"))
    }

    fn backwards() -> Result<Numbers, Fail> {
        Numbers::new([7, 6, 5, 4, 3, 2, 1, 0]).map_err(|_| Fail::new("refused"))
    }

    // The row that is put at a place in a round, another for each.
    fn row_for(round: u32, place: u32) -> Row {
        Row {
            high: u64::from(round),
            low: u64::from(place),
        }
    }

    fn put_all<S: Store>(store: &mut S, round: u32) -> Result<(), Refusal> {
        for place in 0..512u32 {
            store.put(place / 64, place % 64, row_for(round, place))?;
        }
        Ok(())
    }

    fn read_all<S: Store>(rt: &impl Abort, store: &mut S, round: u32) -> Result<(), Fail> {
        for place in 0..512u32 {
            assert_eq!(rt; store.fetch(place / 64, place % 64)?, row_for(round, place));
        }
        Ok(())
    }

    // Every row twice, so that lines are evicted and changes folded.
    fn holds_what_was_put<S: Store>(rt: &impl Abort, store: &mut S) -> Result<(), Fail> {
        put_all(store, 1)?;
        put_all(store, 2)?;
        read_all(rt, store, 2)?;
        assert!(rt; matches!(store.fetch(8, 64), Err(Refusal::TableOutOfRange)));
        assert!(rt; matches!(store.put(7, 64, row_for(3, 0)), Err(Refusal::RowOutOfRange)));
        Ok(())
    }

    #[test]
    fn cache_over_renumbering_over_image(rt: HostRuntime) -> Result<(), Fail> {
        let mut memory = memory(rt.alloc(), 600)?;
        let numbers = backwards()?;
        let mut pile = Cache::new(Renumbering::new(Image::new(&mut memory), &numbers));
        holds_what_was_put(&rt, &mut pile)
    }

    #[test]
    fn renumbering_over_cache_over_change_list(rt: HostRuntime) -> Result<(), Fail> {
        let mut memory = memory(rt.alloc(), 512)?;
        let numbers = backwards()?;
        let mut pile = Renumbering::new(Cache::new(ChangeList::new(&mut memory)), &numbers);
        holds_what_was_put(&rt, &mut pile)
    }

    #[test]
    fn two_caches_and_two_renumberings(rt: HostRuntime) -> Result<(), Fail> {
        let mut memory = memory(rt.alloc(), 512)?;
        let numbers = backwards()?;
        let below = Cache::new(Renumbering::new(ChangeList::new(&mut memory), &numbers));
        let mut pile = Cache::new(Renumbering::new(below, &numbers));
        holds_what_was_put(&rt, &mut pile)
    }

    #[test]
    fn replicas_of_three_kinds(rt: HostRuntime) -> Result<(), Fail> {
        let mut first = memory(rt.alloc(), 512)?;
        let mut second = memory(rt.alloc(), 512)?;
        let mut third = memory(rt.alloc(), 512)?;
        let mut replicas = (
            Image::new(&mut first),
            ChangeList::new(&mut second),
            Cache::new(Image::new(&mut third)),
        );
        replicas.put(2, 3, 4, Counter(7).pack())?;
        assert_eq!(rt; replicas.fetch(1, 3, 4)?, row_for(0, 0));
        assert_eq!(rt; read_as::<Counter>(replicas.fetch(2, 3, 4)?)?, Counter(7));
        assert!(rt; matches!(replicas.fetch(3, 9, 9), Err(Refusal::UnknownReplica)));
        Ok(())
    }

    #[test]
    fn rows_of_no_kind(rt: HostRuntime) {
        assert!(rt;
            matches!(
                read_as::<Counter>(Row { high: 1, low: 7 }),
                Err(Refusal::NoValue)
            )
        );
        assert!(rt;
            matches!(
                read_as::<Tape>(Row {
                    high: 2,
                    low: 4_294_967_296
                }),
                Err(Refusal::NoValue)
            )
        );
        assert!(rt;
            matches!(
                Numbers::new([0, 1, 2, 3, 4, 5, 6, 6]),
                Err(Refusal::NotAPermutation)
            )
        );
    }
}
