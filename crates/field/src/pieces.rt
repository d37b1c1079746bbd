ghost use Rattle.std.specs.Prelude.{◌≡◌, ◌+◌, ◌<◌, ◌≤◌, [], ◌∷◌, length, take, drop, Some, None};
ghost use Rattle.field.specs.Pieces.{pieces};

// Where the mark first stands; nothing where it does not occur.
fn position(mark: u8, text: &[u8]) -> Option<usize>
    ensures { elim result [ Some i ↦ (pieces mark text.now ≡ take i text.now ∷ pieces mark (drop (i + 1) text.now)) × (i < length text.now) | None ↦ pieces mark text.now ≡ text.now ∷ [] ] }
{
    // Not by the iterator's `position`, which takes half as long again for each byte.
    for (i, byte) in text.iter().enumerate() {
        if *byte == mark {
            return Some(i);
        }
    }
    None
}

// The text before the first mark and the text behind it; nothing where the mark does not occur.
pub fn split_at_mark<'a>(mark: u8, text: &'a [u8]) -> Option<(&'a [u8], &'a [u8])>
    ensures { elim result [ Some p ↦ (pieces mark text.now ≡ p.0.now ∷ pieces mark p.1.now) × (p.1.now ≡ drop (length p.0.now + 1) text.now) × (length p.0.now + 1 ≤ length text.now) | None ↦ pieces mark text.now ≡ text.now ∷ [] ] }
{
    let at = position(mark, text)?;
    Some((&text[..at], &text[at + 1..]))
}
