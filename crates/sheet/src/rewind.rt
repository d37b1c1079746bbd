ghost use Rattle.std.specs.Prelude.{◌≡◌};

// A cursor that goes back to where it was unless what it passed over is accepted.
pub struct Rewind<'c> {
    pub cursor: &'c mut usize,
    start: usize,
}

impl Drop for Rewind<'_> {
    fn drop(self)
        ensures { self.exit.0.now ≡ self.entry.start }
    {
        *self.cursor = self.start;
        let Rewind {
            cursor: _,
            start: _,
        } = self;
    }
}

impl<'c> Rewind<'c> {
    pub fn new(cursor: &'c mut usize) -> Rewind<'c>
        ensures from { result.start ≡ cursor.old }
        ensures value { result.cursor.now ≡ cursor.old }
        ensures lent { result.cursor.ghost_name ≡ cursor.entry.ghost_name }
    {
        let start = *cursor;
        Rewind { cursor, start }
    }

    // The cursor stays where it is.
    pub fn accept(self)
        ensures { self.exit.0.now ≡ self.entry.cursor.now }
    {
        let Rewind {
            cursor: _,
            start: _,
        } = self;
    }
}
