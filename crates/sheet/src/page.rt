// The text of a sheet in a sector.
ghost use Rattle.std.specs.Prelude.{◌≡◌};
ghost use Rattle.sheet.specs.Pages.{PageOf, text_length};

use padding::padded;
use refusal::Refusal;

/// The sector that holds a text: its bytes, and then zeros. A text of more than 512 bytes is too long (3).
pub fn page_of(text: &str) -> Result<[u8; 512], Refusal>
    ensures { PageOf text.now result }
{
    if text.len() > 512 {
        return Err(Refusal::TooLong);
    }
    Ok(padded(text.as_bytes()))
}

/// How many bytes stand before the first zero.
pub fn text_length(page: &[u8; 512]) -> usize
    ensures { result ≡ text_length page.now }
{
    padding::text_length(page)
}
