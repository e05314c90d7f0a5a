// Any list of changes, carried out on a fresh register.
ghost use Rattle.std.specs.Prelude.{◌≡◌, ℕ, ◌≤◌, List, [], map, length, take};
ghost use Rattle.names.specs.Orders.{before};
ghost use Rattle.rows.specs.Lists.{Sorted, look_up};
ghost use Rattle.register.specs.Changes.{told, Stops};
ghost use Rattle.register.specs.Images.{key_of, entries_of};
ghost use Rattle.register.specs.Registers.{IsRegister};
ghost use Rattle.register.specs.Said.{said};

use crate::changes::Register;
use names::key::Key;
use pages::paged::Paged;

/// A change of a register.
#[derive(Clone, Copy, PartialEq, Eq, Debug)]
pub enum Change {
    /// An entry is put in, if its key is not there.
    Put { key: Key, start: u32, length: u32 },
    /// The entry of a key is taken out, if there is one.
    Take { key: Key },
}

/// Formats the pages and carries out changes on them in order, up to the first that is refused. Answers how many were carried out.
// The number of pages is asked here for the reason that stands at `Register::format`.
#[tactic(auto, using(crate::proofs::Saying::carried))]
pub fn replay<P: Paged>(pages: &mut [P], changes: &[Change]) -> usize
    requires least { 2 ≤ length pages.old }
    requires most { length pages.old ≤ 21 }
    ensures within { result ≤ length changes.now }
    ensures register { IsRegister (length pages.old) (map P.image pages.new) }
    ensures law { entries_of (map P.image pages.new) ≡ told (take result changes.now) [] }
    ensures ordered { Sorted key_of before (entries_of (map P.image pages.new)) }
    ensures says { (k : List ℕ) → look_up key_of before k (entries_of (map P.image pages.new)) ≡ said k (take result changes.now) }
    ensures full { Stops (length pages.old) (map P.image pages.new) result changes.now }
{
    let mut register = Register::format(pages);
    // A loop: `position` with a closure that carries out each change was tried, and a proof then does not know what the closure left in the register. The refusal is dropped: it can be 5 alone, and the answer tells where.
    for (i, change) in changes.iter().enumerate() {
        if register.carry_out(change).is_err() {
            return i;
        }
    }
    changes.len()
}
