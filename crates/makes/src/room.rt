// How many births, makes and targets there may be.
ghost use Rattle.std.specs.Prelude.{◌≡◌};
ghost use Rattle.makes.specs.Machine.{capped as limited};

#[derive(Clone, Copy, Debug, PartialEq, Eq)]
pub struct Room {
    pub births: usize,
    pub makes: usize,
    pub targets: usize,
}

// The most that there is room for.
const MOST: Room = Room {
    births: 4_096,
    makes: 64,
    targets: 512,
};

impl Room {
    // Room over a limit counts as the limit.
    pub(crate) fn capped(self) -> Room
        ensures answer { result ≡ limited self }
    {
        Room {
            births: self.births.min(MOST.births),
            makes: self.makes.min(MOST.makes),
            targets: self.targets.min(MOST.targets),
        }
    }
}
