// Conflict rules. Two accesses on one key conflict if at least one of them is critical.
ghost use Rattle.std.specs.Prelude.{◌≡◌, ℕ, Bool};
ghost use Rattle.histories.specs.declared.accesses.Kind.{Kind};
ghost use Rattle.histories.specs.Rules.{contents_critical, contents_letter, path_critical, path_letter};

use crate::accesses::Kind;
use crate::keys::InodePair;
use paths::HeldPath;

// Which kinds of access are critical, and under which letter a race is reported. A rule always answers the same.
pub trait ConflictRule {
    // What the rule judges the accesses on; a table is keyed by it.
    type Key;

    ghost critical: { Self → Kind → Bool };

    ghost reports: { Self → ℕ };

    fn is_critical(&self, kind: Kind) -> bool
        ensures answer { result ≡ critical self.now kind };

    // The byte that stands in the printed line.
    fn letter(&self) -> u8
        ensures answer { result ≡ reports self.now };
}

// The rule for the contents of a file: a write conflicts with every read and write.
#[derive(Clone, Copy)]
pub struct ContentsRule;

impl ConflictRule for ContentsRule {
    type Key = InodePair;

    ghost critical = { λ _. contents_critical };

    ghost reports = { λ _. contents_letter };

    fn is_critical(&self, kind: Kind) -> bool {
        matches!(kind, Kind::Write)
    }

    fn letter(&self) -> u8 {
        b'C'
    }
}

// The rule for a path: a removal conflicts with every read, write and removal.
#[derive(Clone, Copy)]
pub struct PathRule;

impl ConflictRule for PathRule {
    type Key = HeldPath;

    ghost critical = { λ _. path_critical };

    ghost reports = { λ _. path_letter };

    fn is_critical(&self, kind: Kind) -> bool {
        matches!(kind, Kind::Removal)
    }

    fn letter(&self) -> u8 {
        b'P'
    }
}
