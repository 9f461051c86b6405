// The draws of a seed: a linear congruential sequence modulo 2^31.
ghost use Rattle.std.specs.Prelude.{◌≡◌, ◌<◌, ◌^◌, ◌%◌};
ghost use Rattle.paprvio.specs.Generated.{drawn};

/// The sequence of a seed, before its next draw.
#[derive(Clone, Copy, Debug, PartialEq, Eq)]
pub(crate) struct Draws {
    last: u32,
}

impl Draws {
    /// The sequence of this seed, of which nothing is drawn yet.
    pub(crate) fn of(seed: u32) -> Draws
        ensures { result.last ≡ seed % 2 ^ 31 }
    {
        Draws {
            last: seed % (1 << 31),
        }
    }

    /// Draws the next number.
    pub(crate) fn draw(&mut self) -> u32
        ensures drawn { result ≡ drawn self.old.last }
        ensures last { self.new.last ≡ result }
    {
        let next = 1_103_515_245 * u64::from(self.last) + 12_345;
        self.last = (next % (1 << 31)) as u32;
        self.last
    }
}
