//! A place in an input that is read from front to end.
ghost use Rattle.std.specs.Prelude.{◌≡◌, ◌+◌, ◌<◌, ◌≤◌, length, take, drop, MatchOption};

/// An input, and the byte of it where reading goes on. The place may lie past the end, where nothing is left to be read.
#[derive(Clone, Copy, PartialEq, Eq, Debug)]
pub struct Cursor<'a> {
    pub input: &'a [u8],
    pub place: usize,
}

impl<'a> Cursor<'a> {
    /// The bytes from the place on; none where it lies past the end.
    pub fn bytes(self) -> Option<&'a [u8]>
        ensures { MatchOption result
            (length self.entry.input.now < self.entry.place)
            (λ rest. (self.entry.place ≤ length self.entry.input.now)
            × (rest.now ≡ drop self.entry.place self.entry.input.now)) }
    {
        self.input.get(self.place..)
    }

    /// The first `count` bytes from the place on; none where some are missing.
    pub fn first(self, count: usize) -> Option<&'a [u8]>
        ensures { MatchOption result
            (length self.entry.input.now < self.entry.place + count)
            (λ front. (self.entry.place + count ≤ length self.entry.input.now)
            × (front.now ≡ take count (drop self.entry.place self.entry.input.now))) }
    {
        self.bytes()?.get(..count)
    }
}
