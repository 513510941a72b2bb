// Where processes and targets are found in a make order. Some ask that a make stands at a place: what stands there depends on the table of
// the moment, so no type can hold it.
ghost use Rattle.std.specs.Prelude.{◌≡◌, ◌<◌, true, length, IfSome};
ghost use Rattle.makes.specs.declared.places.Kind.{Kind};
ghost use Rattle.makes.specs.Machine.{home_of, parent_home as home_of_parent, slots_from, target_at, rows_of, HasTarget};
ghost use Rattle.makes.specs.Rows.{joined_row};
ghost use Rattle.makes.specs.Places.{is_make, is_target, kind_at, birth_at, targets_of, row_of, all_declared};

use crate::places::{Kind, Make};
use crate::rows::{Row, WORDS, join};
use crate::state::Makes;
use births::live_birth;

impl Makes {
    // The home of a birth.
    pub(crate) fn birth_home(&self, i: usize) -> usize
        requires within { i < length self.now.births }
        ensures answer { result ≡ (birth_at self.now.births i).at }
        ensures inside { result < length self.now.places }
    {
        self.births[i].at
    }

    // The home of a live process.
    pub(crate) fn home(&self, process: u32) -> Option<usize>
        ensures answer { result ≡ home_of self.now process }
        ensures within { IfSome result (λ h. h < length self.now.places) }
    {
        let i = live_birth(&self.births, process)?;
        Some(self.birth_home(i))
    }

    // The home of a parent: the session for parent 0.
    pub(crate) fn parent_home(&self, parent: u32) -> Option<usize>
        ensures answer { result ≡ home_of_parent self.now parent }
        ensures within { IfSome result (λ h. h < length self.now.places) }
    {
        // Reads the tree and does nothing: so it is known that the session is a place.
        let _ = &self.tree;
        if parent == 0 {
            return Some(0);
        }
        self.home(parent)
    }

    // The make at a place.
    pub(crate) fn make_at(&self, place: usize) -> Make
        requires made { is_make (kind_at self.now.places place) ≡ true }
        ensures answer { kind_at self.now.places place ≡ Kind.Make result }
    {
        let Kind::Make(make) = self.tree.kind(place) else {
            unreachable!()
        };
        make
    }

    // The row of the target at a place.
    fn row_at(&self, place: usize) -> usize
        requires target { is_target (kind_at self.now.places place) ≡ true }
        ensures answer { result ≡ row_of (kind_at self.now.places place) }
    {
        let Kind::Target { row } = self.tree.kind(place) else {
            unreachable!()
        };
        row
    }

    // Where the places of a make's targets are kept.
    pub(crate) fn first_slot(&self, make: usize) -> usize
        requires made { is_make (kind_at self.now.places make) ≡ true }
        ensures answer { result ≡ slots_from self.now make }
    {
        self.make_at(make).ordinal * self.room.targets
    }

    // The place of a make's target, by its number from 1.
    pub(crate) fn target_place(&self, make: usize, target: u16) -> usize
        requires declared { HasTarget self.now make target }
        ensures answer { result ≡ target_at self.now make target }
    {
        self.slots[self.first_slot(make) + (usize::from(target) - 1)]
    }

    // The row of a new target of a make: its prerequisites, and all that these need.
    pub(crate) fn joined_row(&self, make: usize, prerequisites: &[u16]) -> Row
        requires all { all_declared (targets_of (kind_at self.now.places make)) prerequisites.now ≡ true }
        ensures answer { result ≡ joined_row self.now.rows (rows_of self.now make prerequisites.now) }
    {
        let mut row = [0; WORDS];
        for number in prerequisites {
            let place = self.target_place(make, *number);
            join(&mut row, &self.rows, self.row_at(place));
        }
        row
    }
}
