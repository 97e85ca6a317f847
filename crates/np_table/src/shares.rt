//! What is left to raise, times a cost, over what a step raises by.
ghost use Rattle.std.specs.Prelude.{◌≡◌, ◌<◌, ◌≤◌, ◌^◌, ◌+◌, ◌*◌};
ghost use Rattle.np_table.specs.Tables.{over_up};
ghost use Rattle.np_table.specs.Lowering.{capped};

/// The greatest number of an entry.
const MOST: u128 = 4611686018427387903;

/// A product that fits.
fn product(a: u128, b: u64) -> u128
    requires a { a < 2 ^ 110 }
    requires b { b ≤ 2 ^ 16 }
    ensures value { result ≡ a * b }
    ensures small { result ≤ 2 ^ 126 }
{
    a * b as u128
}

/// The number, or the greatest number of an entry.
fn cut(number: u128) -> u64
    ensures { result ≡ capped number }
{
    number.min(MOST) as u64
}

/// `lack` times `cost` over `net`, rounded up and capped.
pub(crate) fn share(lack: u128, cost: u64, net: u128) -> u64
    requires net { 0 < net }
    requires few { net < 2 ^ 110 }
    requires cost { cost < 2 ^ 32 }
    ensures { result ≡ capped (over_up (lack * cost) net) }
{
    if cost == 0 {
        return 0;
    }
    let whole = lack / net;
    if whole > MOST {
        return 4611686018427387903;
    }
    let rest = lack % net;
    let first = product(rest, cost / 65536);
    let second = product(first % net, 65536) + product(rest, cost % 65536);
    let sum = whole * cost as u128 + first / net * 65536 + (second + (net - 1)) / net;
    cut(sum)
}
