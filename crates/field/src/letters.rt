ghost use Rattle.std.specs.Prelude.{◌≡◌};
ghost use Rattle.field.specs.Letters.{mode_of, declaration_of};

use sequencing::mode::Mode;

// The mode of a letter. No `TryFrom`, whose error nobody would read.
fn mode(letter: u8) -> Option<Mode>
    ensures { result ≡ mode_of letter }
{
    match char::from(letter) {
        'n' => Some(Mode::None),
        'r' => Some(Mode::Read),
        'w' => Some(Mode::Write),
        _ => None,
    }
}

// The modes of tables 0 to 7; nothing where there are not eight letters, or a byte is none.
pub fn modes(letters: &[u8]) -> Option<[Mode; 8]>
    ensures { result ≡ declaration_of letters.now }
{
    match letters {
        [a, b, c, d, e, f, g, h] => Some([
            mode(*a)?,
            mode(*b)?,
            mode(*c)?,
            mode(*d)?,
            mode(*e)?,
            mode(*f)?,
            mode(*g)?,
            mode(*h)?,
        ]),
        _ => None,
    }
}
