//! Numbers written one after another.
ghost use Rattle.host_calls.specs.Filled.{room_at, put_number, SamePlace, so_far};
ghost use Rattle.std.specs.Prelude.{◌≡◌, min, pos};

/// A caller's place for so many numbers, and where the next one goes.
#[derive(Drop)]
pub(crate) struct Room<'a, N> {
    pub(crate) into: &'a mut [N],
    pub(crate) at: usize,
}

impl<'a, N: Copy> Room<'a, N> {
    /// The next number goes first.
    pub(crate) fn new(into: &'a mut [N]) -> Room<'a, N>
        ensures answer { so_far result ≡ room_at into.old 0 }
        ensures same { result.into.ghost_name ≡ into.entry.ghost_name }
    {
        Room { into, at: 0 }
    }

    /// Writes a number where there is room.
    pub(crate) fn put(&mut self, number: N)
        ensures after { put_number (so_far self.old) number ≡ so_far self.new }
        ensures same { SamePlace self.old self.new }
    {
        if self.at < self.into.len() {
            self.into[self.at] = number;
            self.at += 1;
        }
    }
}

/// A count as it is answered, held at the largest number.
pub(crate) fn held(count: usize) -> i64
    ensures answer { result ≡ pos (min count 9223372036854775807) }
{
    i64::try_from(count).unwrap_or(i64::MAX)
}
