// Which of two timestamps is before the other, at the place where they meet.
ghost use Rattle.std.specs.Prelude.{◌≡◌, ◌<◌, length};
ghost use Rattle.makes.specs.Machine.{side_start, side_end, judged};
ghost use Rattle.makes.specs.Judging.{Judgeable};

use crate::climb::Meeting;
use crate::places::{Kind, Span};
use crate::rows::needs;
use crate::state::Makes;

impl Makes {
    // When a side started and ended: the meeting place itself does both at the timestamp's number.
    fn side(&self, meeting: usize, side: usize, number: u32) -> Span
        requires within { side < length self.now.places }
        ensures start { result.start ≡ side_start self.now.places meeting side number }
        ensures end { result.end ≡ side_end self.now.places meeting side number }
    {
        if side == meeting {
            Span::at(number)
        } else {
            self.tree.kind(side).span()
        }
    }

    // Below a make, where the sides are targets, the prerequisites decide, elsewhere the one side's end and the other's start.
    pub(crate) fn judge(&self, m: Meeting, a: u32, b: u32) -> bool
        requires judgeable { Judgeable self.now m }
        ensures answer { result ≡ judged self.now m a b }
    {
        match (self.tree.kind(m.left), self.tree.kind(m.right)) {
            (Kind::Target { row: earlier }, Kind::Target { row: later }) => needs(
                &self.rows, later, earlier,
            ),
            _ => self
                .side(m.place, m.left, a)
                .ends_before(self.side(m.place, m.right, b)),
        }
    }
}
