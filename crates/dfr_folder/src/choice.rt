//! Which old pairs go: the oldest, no more than needed, and never the newest.

ghost use Rattle.std.specs.Prelude.{◌≡◌, ◌+◌, ◌-◌, ◌<◌, ◌≤◌, ◌↔◌, ◌++◌, ◌∷◌, [], ℕ, IsTrue, length, drop, sum};
ghost use Rattle.dfr_folder.specs.Choice.{Fits, IsSurplus};

/// How many pairs a folder keeps.
#[derive(Clone, Copy, Debug, PartialEq, Eq)]
pub enum Keep {
    /// All of them.
    All,
    /// At most this many pairs. The newest one always stays.
    Pairs(u64),
    /// The newest pairs that have at most this many bytes together. The newest one always stays.
    Bytes(u64),
}

/// How many of the newest pairs have at most `most` bytes together, if none of them is left out.
fn fitting(sizes: &[u64], most: u64) -> usize
    ensures within { result ≤ length sizes.now }
    ensures fits { sum (drop (length sizes.now - result) sizes.now) ≤ most }
    ensures more { result < length sizes.now
        → most < sum (drop (length sizes.now - result - 1) sizes.now) }
{
    let mut room = most;
    let mut first = sizes.len();
    while first > 0 {
        let size = sizes[first - 1];
        if room < size {
            return sizes.len() - first;
        }
        room -= size;
        first -= 1;
    }
    sizes.len()
}

/// How many of the newest pairs may stay.
fn staying(keep: Keep, sizes: &[u64]) -> usize
    ensures within { result ≤ length sizes.now }
    ensures fits { Fits keep (drop (length sizes.now - result) sizes.now) }
    ensures more { (fewer : ℕ) → fewer < length sizes.now - result
        → Fits keep (drop fewer sizes.now) → ⊥ }
{
    match keep {
        Keep::All => sizes.len(),
        Keep::Pairs(most) => {
            if most < sizes.len() as u64 {
                return most as usize;
            }
            sizes.len()
        }
        Keep::Bytes(most) => fitting(sizes, most),
    }
}

/// How many of the oldest pairs have to go, so that the others may stay.
pub fn surplus(keep: Keep, sizes: &[u64]) -> usize
    ensures { IsSurplus keep sizes.now result }
{
    let stay = staying(keep, sizes);
    if stay == 0 && !sizes.is_empty() {
        return sizes.len() - 1;
    }
    sizes.len() - stay
}

/// Whether the oldest pair has to go once there is a new one of this size.
pub fn is_full(keep: Keep, sizes: &[u64], size: u64) -> bool
    ensures { IsTrue result ↔ (Fits keep (sizes.now ++ size ∷ []) → ⊥) }
{
    match keep {
        Keep::All => false,
        Keep::Pairs(most) => most <= sizes.len() as u64,
        Keep::Bytes(most) => has_more(sizes, size, most),
    }
}

/// Whether these pairs and a new one have more bytes than these.
fn has_more(sizes: &[u64], size: u64, most: u64) -> bool
    ensures { IsTrue result ↔ (most < sum (sizes.now ++ size ∷ [])) }
{
    let mut room = most;
    for old in sizes {
        if room < *old {
            return true;
        }
        room -= *old;
    }
    room < size
}

/// Bytes that a pair may need beyond its own: the rest of its last blocks, and room for its names.
const BLOCKS: u64 = 65_536;

/// Whether one more old pair goes for a record of `size` bytes that the disk has no room for, after
/// pairs of `given` bytes went for it. So a disk that stays full costs no more than the record needs.
pub fn is_short(size: u64, given: u64) -> bool
    ensures { IsTrue result ↔ (given < size + 65536) }
{
    match given.checked_sub(BLOCKS) {
        Some(beyond) => beyond < size,
        None => true,
    }
}
