// What a sector carries: a value with its encoder, and with a decoder that accepts just the right sectors.
ghost use Rattle.std.specs.Prelude.{◌≡◌, ℕ, List, Option};
ghost use Rattle.layout.specs.Padded.{Decodes};

/// A value that a sector carries.
pub trait Carried: Sized {
    /// What a reader knows beforehand.
    type Known: Copy;

    // Which values have a sector, where this is known.
    ghost Fits: { Self.Known → Self → Type 0 };

    // The sector of a value.
    ghost encoded: { Self → List ℕ };

    // The value in a sector, if the sector is right where this is known.
    ghost decoded: { Self.Known → List ℕ → Option Self };

    /// Fills a sector with this value.
    // Into the caller's bytes: a volume works in one sector of memory, and makes no other.
    fn encode(&self, sector: &mut [u8; 512])
        ensures { sector.new ≡ encoded self.now };

    /// The value in a sector, if the sector is right.
    fn decode(sector: &[u8; 512], known: Self::Known) -> Option<Self>
        ensures value { result ≡ decoded known sector.now }
        ensures law { Decodes (Fits known) encoded sector.now result };
}
