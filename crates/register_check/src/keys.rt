// Whether bytes are a key, and whether the keys of records rise.
ghost use Rattle.std.specs.Prelude.{◌≡◌};
ghost use Rattle.names.specs.Names.{is_byte_key};
ghost use Rattle.register_check.specs.Chains.{rising};

use names::key::Key;
use rows::keyed::Keyed;

// Whether these bytes are a key. The last one is below 256, as every byte is.
// They come as bytes and not as a `Key`, since those of a page that is checked need be none.
pub(crate) fn is_key(bytes: &[u8; 22]) -> bool
    ensures { result ≡ is_byte_key bytes.now }
{
    Key::from_bytes(bytes).is_some()
}

// Whether the key of each record comes before that of the next.
pub(crate) fn rising<R: Keyed<Key = [u8; 22]>>(records: &[R]) -> bool
    ensures { result ≡ rising R.key records.now }
{
    records.is_sorted_by(|x, y| x.key() < y.key())
}
