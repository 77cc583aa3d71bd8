//! Whether an interface gives few addresses and routes by its options.
ghost use Rattle.std.specs.Prelude.{◌≡◌, ◌^◌, ℕ, List, length, nat_le};
ghost use Rattle.net_rules.specs.Want.{of_options};

use net_rows::InterfaceRow;

/// What one interface gives by its options, or by an answer, is at most this.
pub const MOST_GIVEN: usize = 1 << 49;

/// Whether a row gives no more than `MOST_GIVEN` addresses and routes by its options, on each
/// device.
pub fn gives_few(row: &InterfaceRow) -> bool
    ensures { (dev : List ℕ) → result ≡ nat_le (length (of_options row.now dev)) (2 ^ 49) }
{
    row.addresses.as_slice().len() + row.gateways.as_slice().len() <= MOST_GIVEN
}
