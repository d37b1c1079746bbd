ghost use Rattle.std.specs.Prelude.{◌≡◌, true, length};
ghost use Rattle.layers.specs.Numbers.{permutation};

pub mod checks;

// The numbers of the tables below: each of 0 to 7 just once.
#[derive(Clone, Copy)]
pub struct Numbers {
    below: [u32; 8],
    ghost eight: { length below ≡ 8 },
    ghost once: { permutation below ≡ true },
}
