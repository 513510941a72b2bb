// The tree of places, as a table.
ghost use Rattle.std.specs.Prelude.{◌≡◌, ◌<◌, ◌≤◌, [], ◌∷◌, length, IfOk, vec_len, vec_capacity};
ghost use Rattle.makes.specs.Places.{shapes, no_place, place_at, kind_at, targets_of, stand as standing, added_below, make_added, step_added, target_added};
ghost use Rattle.makes.specs.Sound.{SoundTree};

use crate::places::{Kind, Make, Place, Status};
use std::alloc::{AllocError, Global};

// A place is named by its index, which timestamps carry, and the table is of fixed size: so it is a table, and no tree of boxes. Methods ask
// that there is a place of a number, or room for one more: both depend on the table of the moment, so no type can hold them.
#[derive(Drop)]
pub struct Tree {
    // the session first, and each other place after the one that it stands below
    pub(crate) places: Vec<Place>,
    ghost sound: { SoundTree (shapes places.items) },
}

impl Tree {
    // The session alone, with room for so many places.
    pub fn new(heap: Global, room: usize) -> Result<Tree, AllocError>
        requires some { 0 < room }
        ensures session { IfOk result (λ t. t.places.items ≡ no_place ∷ []) }
        ensures capacity { IfOk result (λ t. room ≤ vec_capacity t.places) }
    {
        let mut places = Vec::with_capacity(heap, room)?;
        places.push_reserved(Place {
            parent: 0,
            depth: 0,
            live: 0,
            kind: Kind::Session,
        });
        Ok(Tree { places })
    }

    // How many places there are.
    pub fn len(&self) -> usize
        ensures answer { result ≡ length self.now.places.items }
        ensures some { 0 < result }
    {
        self.places.len()
    }

    // A place, by its number.
    pub fn place(&self, x: usize) -> Place
        requires within { x < length self.now.places.items }
        ensures answer { result ≡ place_at self.now.places.items x }
        ensures shallow { result.depth ≤ 16 }
    {
        self.places[x]
    }

    // What a place is.
    pub fn kind(&self, x: usize) -> Kind
        requires within { x < length self.now.places.items }
        ensures answer { result ≡ kind_at self.now.places.items x }
    {
        self.place(x).kind
    }

    // Where a process with this home stands.
    pub fn stand(&self, home: usize) -> usize
        requires within { home < length self.now.places.items }
        ensures answer { result ≡ standing self.now.places.items home }
    {
        let place = self.place(home);
        if place.kind.is_make() {
            place.parent
        } else {
            home
        }
    }

    // Adds a make below the place of its own process, which is a live process there.
    pub fn add_make(&mut self, home: usize, ordinal: usize)
        requires within { home < length self.old.places.items }
        requires room { vec_len self.old.places < vec_capacity self.old.places }
        requires kept { SoundTree (shapes (make_added self.old.places.items home ordinal)) }
        ensures items { self.new.places.items ≡ make_added self.old.places.items home ordinal }
        ensures capacity { vec_capacity self.new.places ≡ vec_capacity self.old.places }
    {
        let depth = self.place(home).depth + 1;
        self.places.push_reserved(Place {
            parent: home,
            depth,
            live: 1,
            kind: Kind::Make(Make {
                status: Status::Unstarted,
                ordinal,
                targets: 0,
            }),
        });
    }

    // Adds a step below a target of the make, which has begun with it.
    pub fn add_step(&mut self, make: usize, above: usize, number: u32)
        requires within { make < length self.old.places.items }
        requires room { vec_len self.old.places < vec_capacity self.old.places }
        requires kept { SoundTree (shapes (step_added number self.old.places.items make above)) }
        ensures items { self.new.places.items ≡ step_added number self.old.places.items make above }
        ensures capacity { vec_capacity self.new.places ≡ vec_capacity self.old.places }
    {
        let begun = self.kind(make).begun(number);
        let step = Kind::Step {
            start: number,
            end: None,
        };
        self.add_below(make, begun, above, step);
    }

    // Adds a target of the make.
    pub fn add_target(&mut self, make: usize, row: usize)
        requires within { make < length self.old.places.items }
        requires room { vec_len self.old.places < vec_capacity self.old.places }
        requires few { targets_of (kind_at self.old.places.items make) ≤ 512 }
        requires kept { SoundTree (shapes (target_added self.old.places.items make row)) }
        ensures items { self.new.places.items ≡ target_added self.old.places.items make row }
        ensures capacity { vec_capacity self.new.places ≡ vec_capacity self.old.places }
    {
        let declared = self.kind(make).declared();
        self.add_below(make, declared, make, Kind::Target { row });
    }

    // Puts a new place last, as deep as the make, whose kind is now `made`.
    fn add_below(&mut self, make: usize, made: Kind, parent: usize, kind: Kind)
        requires within { make < length self.old.places.items }
        requires room { vec_len self.old.places < vec_capacity self.old.places }
        requires kept { SoundTree (shapes (added_below self.old.places.items make made parent kind)) }
        ensures items { self.new.places.items ≡ added_below self.old.places.items make made parent kind }
        ensures capacity { vec_capacity self.new.places ≡ vec_capacity self.old.places }
    {
        let depth = self.place(make).depth;
        self.places[make].kind = made;
        self.places.push_reserved(Place {
            parent,
            depth,
            live: 0,
            kind,
        });
    }
}
