// What the accepted events do to a make order, each at its number. Each asks that the state after it is sound, which the law of orders proves
// of the state that the machine gives: proved here again, it would be proved twice.
ghost use Rattle.std.specs.Prelude.{◌≡◌, true, length};
ghost use Rattle.makes.specs.Machine.{settled, stepped, turned, listed, ended, HasTarget};
ghost use Rattle.makes.specs.Places.{is_make, targets_of, kind_at, birth_at, all_declared};
ghost use Rattle.makes.specs.Sound.{Sound};

use crate::state::Makes;
use births::Birth;

impl Makes {
    // A process is born at a place.
    pub(crate) fn bear(&mut self, number: u32, process: u32, place: usize)
        requires kept { Sound (settled number self.old process self.old.places place) }
        ensures after { self.new ≡ settled number self.old process self.old.places place }
    {
        self.births.push_reserved(Birth {
            process,
            at: place,
            live: true,
        });
        self.tree.enter(place);
        self.number = number;
    }

    // A process is born at a new step of a make's target. Not by `bear` after the step: between the two the state is not sound, for a step
    // without a process has not ended.
    pub(crate) fn bear_step(&mut self, number: u32, process: u32, make: usize, target: u16)
        requires declared { HasTarget self.old make target }
        requires kept { Sound (settled number self.old process (stepped number self.old make target) (length self.old.places)) }
        ensures after { self.new ≡ settled number self.old process (stepped number self.old make target) (length self.old.places) }
    {
        let above = self.target_place(make, target);
        let step = self.tree.len();
        self.tree.add_step(make, above, number);
        self.births.push_reserved(Birth {
            process,
            at: step,
            live: true,
        });
        self.tree.enter(step);
        self.number = number;
    }

    // The process of a birth turns out to be a make.
    pub(crate) fn turn_make(&mut self, number: u32, i: usize)
        requires live { (birth_at self.old.births i).live ≡ true }
        requires kept { Sound (turned number self.old i) }
        ensures after { self.new ≡ turned number self.old i }
    {
        let home = self.birth_home(i);
        self.births[i].at = self.tree.len();
        self.tree.add_make(home, self.makes);
        self.makes += 1;
        self.number = number;
    }

    // A make declares its next target.
    pub(crate) fn declare(&mut self, number: u32, make: usize, prerequisites: &[u16])
        requires made { is_make (kind_at self.old.places make) ≡ true }
        requires all { all_declared (targets_of (kind_at self.old.places make)) prerequisites.now ≡ true }
        requires kept { Sound (listed number self.old make prerequisites.now) }
        ensures after { self.new ≡ listed number self.old make prerequisites.now }
    {
        let row = self.joined_row(make, prerequisites);
        let slot = self.first_slot(make) + self.make_at(make).targets;
        self.slots[slot] = self.tree.len();
        self.tree.add_target(make, self.rows.len());
        self.rows.push_reserved(row);
        self.number = number;
    }

    // The process of a birth ends.
    pub(crate) fn end(&mut self, number: u32, i: usize)
        requires live { (birth_at self.old.births i).live ≡ true }
        requires kept { Sound (ended number self.old i) }
        ensures after { self.new ≡ ended number self.old i }
    {
        let home = self.birth_home(i);
        self.births[i].live = false;
        self.tree.leave(home, number);
        self.number = number;
    }
}
