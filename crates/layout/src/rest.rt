// What stands behind the fields of a sector: zeros.
ghost use Rattle.std.specs.Prelude.{◌≡◌, ◌≤◌, ◌==◌, ◌&&◌, true, drop};
ghost use Rattle.std.specs.List.{fold};
ghost use Rattle.names.specs.Names.{zeros};

// Whether each byte is zero, with a look at all of them.
// No search that stops at the first other one: a right sector has none, and while a search takes its bytes one by one, a fold takes many at a time.
fn each_is_zero(bytes: &[u8]) -> bool
    ensures { result ≡ fold (λ all byte. all && (byte == 0)) true bytes.now }
{
    bytes.iter().fold(true, |all, byte| all & (*byte == 0))
}

// Whether all of the bytes are zero.
#[tactic(auto, using(crate::proofs::Zeros::tested))]
pub(crate) fn are_zeros(bytes: &[u8]) -> bool
    ensures { result ≡ zeros bytes.now }
{
    each_is_zero(bytes)
}

// Whether all bytes of a sector from `first` on are zero.
#[tactic(auto, using(crate::proofs::Zeros::tested))]
pub(crate) fn are_zeros_from(sector: &[u8; 512], first: usize) -> bool
    requires { first ≤ 512 }
    ensures { result ≡ zeros (drop first sector.now) }
{
    are_zeros(&sector[first..])
}
