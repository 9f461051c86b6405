// The word of an entry, as a step reads it.
ghost use Rattle.std.specs.Prelude.{◌≡◌, ◌<◌, ◌^◌};
ghost use Rattle.entry_slots.specs.Words.{pins_in, version_in, told_in};

use vio_num::PAGE_BYTES;

/// The word of an entry, as a step read it.
#[derive(Clone, Copy, Debug, PartialEq, Eq)]
pub struct EntryWord {
    pub bits: u64,
    ghost few: { version_in bits < 2 ^ 31 },
}

impl EntryWord {
    /// How many seats held the entry.
    pub fn pins(self) -> u32
        ensures { result ≡ pins_in self.bits }
    {
        (self.bits % 131_072) as u32
    }

    /// The version of the entry's last value.
    pub fn version(self) -> u32
        ensures { result ≡ version_in self.bits }
    {
        (self.bits / 131_072 / 1024) as u32
    }

    /// The entry's last value, as a refusal tells it: its page and its rights alone, or 0 where it has none.
    pub fn value(self) -> u64
        ensures { result ≡ told_in self.bits }
    {
        let code = self.bits / 131_072 % 1024;
        code / 4 * PAGE_BYTES + code % 4
    }
}
