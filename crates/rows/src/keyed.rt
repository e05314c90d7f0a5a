// What a record has to tell so that a row can hold it in order.
ghost use Rattle.std.specs.Prelude.{◌≡◌};
ghost use Rattle.names.specs.Orders.{Total};
ghost use Rattle.rows.specs.Lists.{comes_before};
ghost use Rattle.rows.specs.KeysTotal.{keys-total};

/// What a key is: its values are in an order by which two are one if neither comes first.
// A trait of its own, since a ghost member of `Keyed` cannot name the order of its `Key`. Whoever knows a record's kind has the law by it, with no record at hand.
pub trait TotalKey: Ord {
    /// The order is total.
    ghost total: { Total (comes_before Self.Ord.cmp) };
}

// Bytes are in their own order.
impl<const N: usize> TotalKey for [u8; N] {
    ghost total = { keys-total };
}

/// A record that tells its key. Keys are in the order of their type.
pub trait Keyed {
    /// What a key is.
    type Key: TotalKey + Drop;

    /// The key of a record.
    ghost key: { Self → Self.Key };

    /// The key.
    // A copy, and not lent: a record that keeps its key in other bytes can answer it too.
    fn key(&self) -> Self::Key
        ensures value { result ≡ key self.now }
        ensures order { Total (comes_before Self.Key.Ord.cmp) };
}
