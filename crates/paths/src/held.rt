mod methods;

use std::marker::Model;

// A well-formed path that owns its bytes. Contracts see it as these bytes.
#[derive(Drop)]
pub struct HeldPath {
    bytes: Vec<u8>,
}

impl Model for HeldPath {
    ghost use Rattle.std.specs.Prelude.{◌≡◌, true, ℕ, List};
    ghost use Rattle.paths.specs.Forms.{wellformed};

    ghost Value = { List ℕ };

    ghost view = { λ h. h.bytes.items };

    ghost invariant = { λ h. wellformed h.bytes.items ≡ true };
}
