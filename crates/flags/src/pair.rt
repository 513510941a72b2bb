use order::Timestamp;

// An await, with the post of its flag.
#[derive(Clone, Copy)]
pub struct Pair {
    pub post: Timestamp,
    pub wait: Timestamp,
    // A bit for each earlier pair, oldest first: whether its await is, or is before, this pair's post. A word holds them all, so that an
    // await allocates nothing.
    pub earlier: u32,
}
