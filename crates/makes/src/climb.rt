// Climbing the tree of places.
ghost use Rattle.std.specs.Prelude.{◌≡◌, ℕ, ◌<◌, ◌≤◌, length, vec_capacity};
ghost use Rattle.makes.specs.declared.places.Place.{Place};
ghost use Rattle.makes.specs.Places.{parents, place_at, changed, one_more, one_less};
ghost use Rattle.makes.specs.Tree.{Earlier, Holds, Meets, line, climb_in, climb as climbed};

use crate::places::Place;
use crate::tree::Tree;

// Where two places meet: the lowest place that holds both, and on each side the place right below it that holds the one. Where the one is
// the meeting place itself, it stands for itself.
#[derive(Clone, Copy, Debug, PartialEq, Eq)]
pub struct Meeting {
    pub place: usize,
    pub left: usize,
    pub right: usize,
}

impl Tree {
    // Climbs from two places to where they meet. No place is more than 48 levels below the session, so that there are at most 96 turns.
    pub fn climb(&self, a: usize, b: usize) -> Meeting
        requires a_within { a < length self.now.places.items }
        requires b_within { b < length self.now.places.items }
        ensures answer { result ≡ climbed (parents self.now.places.items) a b }
        ensures lowest { Meets (parents self.now.places.items) a b result }
        ensures turns { (k : ℕ) × (k ≤ 96) × (result ≡ climb_in (parents self.now.places.items) k a b a b) }
    {
        let mut x = a;
        let mut y = b;
        let mut left = a;
        let mut right = b;
        loop {
            if x == y {
                break Meeting {
                    place: x,
                    left,
                    right,
                };
            }
            if x < y {
                right = y;
                y = self.place(y).parent;
            } else {
                left = x;
                x = self.place(x).parent;
            }
        }
    }

    // One live process more at or below each place that holds the given one.
    pub fn enter(&mut self, home: usize)
        requires within { home < length self.old.places.items }
        requires few { (x : ℕ) → (place_at self.old.places.items x).live ≤ 4096 }
        ensures after { self.new.places.items ≡ changed one_more self.old.places.items (line (parents self.old.places.items) home) }
        ensures capacity { vec_capacity self.new.places ≡ vec_capacity self.old.places }
    {
        change_line(&mut self.places, home, Place::one_more);
    }

    // One live process less at or below each place that holds the given one; what the last one leaves ends at the number.
    pub fn leave(&mut self, home: usize, number: u32)
        requires within { home < length self.old.places.items }
        requires some { (x : ℕ) → Holds (parents self.old.places.items) x home → 0 < (place_at self.old.places.items x).live }
        ensures after { self.new.places.items ≡ changed (one_less number) self.old.places.items (line (parents self.old.places.items) home) }
        ensures capacity { vec_capacity self.new.places ≡ vec_capacity self.old.places }
    {
        change_line(&mut self.places, home, |place| place.one_less(number));
    }
}

// Changes each place that holds the given one, from itself up to the session.
fn change_line<F: Fn(Place) -> Place>(places: &mut [Place], home: usize, change: F)
    requires rooted { Earlier (parents places.old) }
    requires within { home < length places.old }
    requires able { (x : ℕ) → Holds (parents places.old) x home → F.pre change (place_at places.old x) }
    ensures after { (f : Place → Place) → ((p q : Place) → F.post change p q → q ≡ f p) → places.new ≡ changed f places.old (line (parents places.old) home) }
{
    let mut x = home;
    loop {
        let place = places[x];
        places[x] = change(place);
        if x == 0 {
            break;
        }
        x = place.parent;
    }
}
