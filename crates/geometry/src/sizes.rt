// The sectors of a file and of a record.
ghost use Rattle.std.specs.Prelude.{◌≡◌, ℕ, ◌+◌, ◌<◌, ◌≤◌, Ok, Err};
ghost use Rattle.refusal.specs.declared.Refusal.TheVariants.{TooLong};
ghost use Rattle.geometry.specs.Sizes.{longest, data_sectors, HoldsJust, extent_of, record_of};

use refusal::Refusal;

/// The largest number of bytes in a file.
pub const LONGEST: u32 = 8192;

/// The data sectors of a file of so many bytes, or 3 if it is too long.
pub fn data_sectors(bytes: u32) -> Result<u32, Refusal>
    ensures value { elim result [ Ok n ↦ (bytes ≤ longest) × (n ≡ data_sectors bytes) | Err x ↦ (longest < bytes) × (x ≡ TooLong) ] }
    ensures just { elim result [ Ok n ↦ HoldsJust bytes n | Err x ↦ (x ≡ TooLong) ] }
{
    if bytes > LONGEST {
        return Err(Refusal::TooLong);
    }
    Ok(bytes.div_ceil(512))
}

/// The sectors of a file's extent: its leader, its data and one that is never written. 3 if it is too long.
pub fn extent_sectors(bytes: u32) -> Result<u32, Refusal>
    ensures { elim result [ Ok n ↦ (bytes ≤ longest) × (n ≡ extent_of bytes) | Err x ↦ (longest < bytes) × (x ≡ TooLong) ] }
{
    Ok(data_sectors(bytes)? + 2)
}

/// The sectors of a record of so many pages.
pub fn record_sectors(pages: u8) -> u32
    ensures { result ≡ record_of pages }
{
    5 + 2 * u32::from(pages)
}
