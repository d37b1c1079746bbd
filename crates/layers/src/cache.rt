ghost use Rattle.std.specs.Prelude.{◌≡◌, ◌<◌, ◌/◌, ◌==◌, None};
ghost use Rattle.layers.specs.Lines.{cached, written_back, evicted, empty_lines, overlaid, overlaid_full};

use catalogue::refusal::Refusal;
use catalogue::row::{Place, ROWS, Row, place_of};
use catalogue::store::Store;

const LINES: usize = 16;

// In line k, the row of the place 16 × tag + k.
#[derive(Clone, Copy)]
pub struct Line {
    tag: u8,
    row: Row,
}

// A store over another, with lines that only puts fill.
#[derive(Drop)]
pub struct Cache<S> {
    below: S,
    lines: [Option<Line>; 16],
}

impl Line {
    // Whether the row is that of the place, which belongs to this line.
    fn has(self, place: Place) -> bool
        ensures { result ≡ (self.tag == place.index / 16) }
    {
        usize::from(self.tag) == place.index() / LINES
    }
}

// The row of the place, where its line has it.
fn row_in(lines: &[Option<Line>; 16], place: Place) -> Option<Row>
    ensures { result ≡ cached lines.now place.index }
{
    lines[place.index() % LINES]
        .filter(|line| line.has(place))
        .map(|line| line.row)
}

// Line k goes below, unless it is empty.
fn write_back<S: Store>(below: &mut S, k: usize, line: Option<Line>)
    requires { k < 16 }
    ensures rows { S.Store.rows below.new ≡ written_back k line (S.Store.rows below.old) }
    ensures kept { S.Store.lent below.new ≡ S.Store.lent below.old }
{
    if let Some(line) = line {
        let place = (usize::from(line.tag) * LINES + k) as u32;
        // A tag above 31 has no place, and is refused below.
        let _ = below.put(place / ROWS, place % ROWS, line.row);
    }
}

// The line of the place goes below, unless it has the row of the place itself.
fn evict<S: Store>(below: &mut S, line: Option<Line>, place: Place)
    ensures rows { S.Store.rows below.new ≡ evicted line place.index (S.Store.rows below.old) }
    ensures kept { S.Store.lent below.new ≡ S.Store.lent below.old }
{
    match line {
        Some(line) if line.has(place) => {}
        _ => write_back(below, place.index() % LINES, line),
    }
}

impl<S> Cache<S> {
    pub fn new(below: S) -> Cache<S>
        ensures { (result.below ≡ below) × (result.lines ≡ empty_lines) }
    {
        Cache {
            below,
            lines: [None; 16],
        }
    }
}

impl<S: Store> Cache<S> {
    // Puts every line below, and hands that store back.
    pub fn into_below(self) -> S
        ensures rows { S.Store.rows result ≡ overlaid self.lines (S.Store.rows self.below) }
        ensures lent { S.Store.lent result ≡ S.Store.lent self.below }
    {
        let Cache { mut below, lines } = self;
        for (k, line) in lines.iter().enumerate() {
            write_back(&mut below, k, *line);
        }
        below
    }
}

impl<S: Store> Store for Cache<S> {
    ghost rows = { λ s. overlaid s.lines (S.Store.rows s.below) };

    ghost full = { λ s. overlaid_full s.lines (S.Store.rows s.below) };

    ghost lent = { λ s. S.Store.lent s.below };

    fn fetch(&mut self, table: u32, row: u32) -> Result<Row, Refusal> {
        let place = place_of(table, row)?;
        match row_in(&self.lines, place) {
            Some(row) => Ok(row),
            None => self.below.fetch(table, row),
        }
    }

    fn put(&mut self, table: u32, row: u32, value: Row) -> Result<(), Refusal> {
        let place = place_of(table, row)?;
        let index = place.index();
        let k = index % LINES;
        evict(&mut self.below, self.lines[k], place);
        self.lines[k] = Some(Line {
            tag: (index / LINES) as u8,
            row: value,
        });
        Ok(())
    }
}
