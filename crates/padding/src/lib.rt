// Bytes with zeros behind them, up to a fixed length, and where the zeros begin.
#![tactic(auto)]

ghost use Rattle.std.specs.Prelude.{◌≡◌, ◌-◌, ◌≤◌, ◌++◌, ◌==◌, length, replicate, take};
ghost use Rattle.std.specs.List.{position_or_len};

/// These bytes, and zeros behind them up to N.
pub fn padded<const N: usize>(bytes: &[u8]) -> [u8; N]
    requires { length bytes.now ≤ N }
    ensures { result ≡ bytes.now ++ replicate (N - length bytes.now) 0 }
{
    let mut whole = [0; N];
    whole[..bytes.len()].copy_from_slice(bytes);
    whole
}

/// The first N of these bytes, or all of them and zeros behind them.
pub fn fitted<const N: usize>(bytes: &[u8]) -> [u8; N]
    ensures { result ≡ take N bytes.now ++ replicate (N - length bytes.now) 0 }
{
    padded(&bytes[..bytes.len().min(N)])
}

/// How many bytes stand before the first zero.
pub fn text_length(bytes: &[u8]) -> usize
    ensures value { result ≡ position_or_len (λ b. b == 0) bytes.now }
    ensures within { result ≤ length bytes.now }
{
    bytes.iter().take_while(|byte| **byte != 0).count()
}
