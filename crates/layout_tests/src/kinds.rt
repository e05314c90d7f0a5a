// Whether a sector is right.
use layout::carried::Carried;

/// Whether a sector is right as one of a kind, where this is known.
pub fn is_right<C: Carried + Drop>(sector: &[u8; 512], known: C::Known) -> bool {
    C::decode(sector, known).is_some()
}
