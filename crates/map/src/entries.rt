// What the entries of both tables have in common, and the rules over a table of them.
ghost use Rattle.std.specs.Prelude.{◌≡◌, ◌≤◌, min, Bool, length, take, drop, leb, not, ◌&&◌};
ghost use Rattle.map.specs.Tables.{any, sound};

// An entry of a table.
pub trait Entry: Copy {
    ghost in_range: { Self → Bool };

    ghost is_set: { Self → Bool };

    ghost overlaps: { Self → Self → Bool };

    // Whether it is in range by itself.
    fn in_range(self) -> bool
        ensures { result ≡ in_range self };

    // Whether it holds anything but zeros.
    fn is_set(self) -> bool
        ensures { result ≡ is_set self };

    // Whether it overlaps another entry.
    fn overlaps(self, other: Self) -> bool
        ensures { result ≡ overlaps self other };
}

// How many entries of a table of eight are in use, where the count may be anything.
pub fn used(count: u16) -> usize
    ensures { result ≡ min count 8 }
{
    usize::from(count).min(8)
}

// The entries in use.
pub fn in_use<T: Entry>(count: u16, table: &[T]) -> &[T]
    ensures { result.now ≡ take count table.now }
{
    &table[..table.len().min(count as usize)]
}

// Whether an entry overlaps one of these.
#[tactic(auto, unfolding(crate::specs::Tables::any))]
pub fn meets<T: Entry>(e: T, entries: &[T]) -> bool
    ensures { result ≡ any (T.overlaps e) entries.now }
{
    entries.iter().any(|x| e.overlaps(*x))
}

// Whether an entry holds anything but zeros.
#[tactic(auto, unfolding(crate::specs::Tables::any))]
fn any_set<T: Entry>(entries: &[T]) -> bool
    ensures { result ≡ any T.is_set entries.now }
{
    entries.iter().any(|x| x.is_set())
}

// Whether each entry is in range and overlaps none after it.
#[tactic(auto, unfolding(crate::specs::Tables::sound, crate::specs::Tables::any))]
fn is_sound<T: Entry>(entries: &[T]) -> bool
    ensures { result ≡ sound T.in_range T.overlaps entries.now }
{
    match entries.split_first() {
        Some((e, rest)) => e.in_range() && !meets(*e, rest) && is_sound(rest),
        None => true,
    }
}

// Whether a table of eight is valid by itself: at most eight entries are in use, the others are zero, and those in use are sound.
pub fn is_valid<T: Entry>(count: u16, table: &[T]) -> bool
    requires { length table.now ≡ 8 }
    ensures { result ≡ (leb count 8 && not (any T.is_set (drop count table.now)) && sound T.in_range T.overlaps (take count table.now)) }
{
    if 8 < count {
        return false;
    }
    let (used, spare) = table.split_at(count as usize);
    !any_set(spare) && is_sound(used)
}
