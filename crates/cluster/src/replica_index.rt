ghost use Rattle.std.specs.Prelude.{◌<◌};

// Which replica: one of the four that there are at most.
#[derive(Clone, Copy)]
pub struct ReplicaIndex {
    pub(crate) number: u32,
    ghost few: { number < 4 },
}
