// Another image for a page.
ghost use Rattle.std.specs.Prelude.{◌≡◌, true, false};
ghost use Rattle.journal.specs.Calls.{Loggable, ChangeUp};

use crate::inner::{Inner, MOST_NUMBER, Standing};
use pages::paged::write_at;
use refusal::Refusal;

/// Changes the image of a page of an up journal, in memory alone. Refused with 14 where the next group number is above 4,000,000,000; with 13 and the page where there is no such page, or the image begins like the head or the end of a record.
pub fn change_up(
    inner: &mut Inner,
    standing: &Standing,
    page: u32,
    image: &[u8; 512],
) -> Result<(), Refusal>
    ensures { ChangeUp standing.now page image.now inner.old result inner.new }
{
    if standing.place.next > MOST_NUMBER {
        return Err(Refusal::NumbersUsedUp);
    }
    if page >= standing.geometry.pages || !is_loggable(image) {
        return Err(Refusal::RegisterBroken(page));
    }
    write_at(&mut inner.frames, page as usize, image);
    Ok(())
}

/// Whether an image begins neither like a head nor like an end.
pub fn is_loggable(image: &[u8; 512]) -> bool
    ensures { elim result [ true ↦ Loggable image.now | false ↦ (Loggable image.now → ⊥) ] }
{
    !image.starts_with(b"FSDH") && !image.starts_with(b"FSDE")
}
