//! What the table says of an entry.
ghost use Rattle.std.specs.Prelude.{◌≡◌, ◌<◌, ◌^◌};
ghost use Rattle.queues.specs.Places.{code_of};

/// Whether an entry is threaded, and what comes after it. The table holds it as a number.
#[derive(Clone, Copy, Debug, PartialEq, Eq)]
pub(crate) enum Place {
    /// Not threaded.
    Idle,
    /// Threaded, and the last.
    Last,
    /// Threaded, with this entry as the next.
    Before(usize),
}

impl From<u32> for Place {
    ghost from_gives = { λ code place. code_of place ≡ code };

    fn from(code: u32) -> Place {
        match code {
            0 => Place::Idle,
            1 => Place::Last,
            _ => Place::Before((code - 2) as usize),
        }
    }
}

impl Place {
    /// The number that the table holds for it.
    pub(crate) fn code(self) -> u32
        requires { code_of self < 2 ^ 32 }
        ensures { result ≡ code_of self }
    {
        match self {
            Place::Idle => 0,
            Place::Last => 1,
            Place::Before(next) => next as u32 + 2,
        }
    }
}
