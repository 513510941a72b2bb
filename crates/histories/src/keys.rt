// Keys, and the search for the row of a key.
ghost use Rattle.std.specs.Prelude.{◌≡◌, Bool, Decides, map, position};
ghost use Rattle.std.specs.Str.{bytes_eq};
ghost use Rattle.paths.specs.Bytes.{path_bytes};
ghost use Rattle.histories.specs.Keys.{Finds, same_pair};

use paths::{HeldPath, Path};

// An inode, by its device.
#[derive(Clone, Copy, Debug, PartialEq, Eq)]
pub struct InodePair {
    pub device: u32,
    pub inode: u64,
}

// A row of a table: a key, and what is kept for it.
#[derive(Drop)]
pub struct Row<K, V> {
    pub key: K,
    pub value: V,
}

// Keys that can be compared with keys of a type Q, which may be another type than their own. `equal` says what each answer means.
pub trait EqualTo<Q> {
    ghost equal: { Self → Q → Bool → Type 0 };

    fn equal_to(&self, other: &Q) -> bool
        ensures { equal self.now other.now result };
}

// Where a type has `==`, that compares two keys of it.
impl<K: PartialEq> EqualTo<K> for K {
    ghost equal = { λ a b r. r ≡ K.eq a b };

    fn equal_to(&self, other: &K) -> bool {
        *self == *other
    }
}

// A held path equals a borrowed one exactly if their bytes are the same.
impl<'a> EqualTo<Path<'a>> for HeldPath {
    ghost equal = { λ h p r. Decides r (h ≡ path_bytes p) };

    fn equal_to(&self, other: &Path<'a>) -> bool {
        self.equals(other)
    }
}

// The first row whose key equals this one, by its place. There is one exactly if some row's key does.
pub fn find<K: EqualTo<Q>, Q, V>(rows: &[Row<K, V>], key: &Q) -> Option<usize>
    ensures { Finds (λ row. K.equal row.key key.now) rows.now result }
{
    rows.iter().position(|row| row.key.equal_to(key))
}

// The row of an inode pair. This and the next are `find` at one type of key, where the clause says more than its relation.
pub fn find_pair<V>(rows: &[Row<InodePair, V>], pair: InodePair) -> Option<usize>
    ensures { result ≡ position (λ held. same_pair held pair) (map (λ row. row.key) rows.now) }
{
    find(rows, &pair)
}

// The row of a path.
pub fn find_path<V>(rows: &[Row<HeldPath, V>], path: Path<'_>) -> Option<usize>
    ensures { result ≡ position (λ held. bytes_eq held (path_bytes path.entry)) (map (λ row. row.key) rows.now) }
{
    find(rows, &path)
}
