// The worked cases: one table of examples, and one proof over all of it.
#![tactic(auto)]

ghost use Rattle.std.specs.Prelude.{◌≡◌, length};
ghost use Rattle.cases.specs.Cases.{table, all_hold};

/// How many worked cases there are. All of them hold.
pub fn worked_cases() -> u8
    ensures count { result ≡ length table }
    ensures hold { all_hold table }
{
    8
}
