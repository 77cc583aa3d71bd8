ghost use Rattle.std.specs.Prelude.{◌≡◌, ◌==◌, filter, not};
ghost use Rattle.ubus_table.specs.declared.rows.Client.{Client as ClientRow};
ghost use Rattle.ubus_table.specs.declared.rows.Registration.{Registration as RegistrationRow};
ghost use Rattle.ubus_state.specs.Among as among;

use ubus_table::{Client, Registration};

/// Whether the number is one of these.
pub fn is_among(numbers: &[u32], number: u32) -> bool
    ensures { result ≡ among.is_among numbers.now number }
{
    numbers.iter().any(|n| *n == number)
}

/// Drops the registrations of an object.
pub fn drop_registered(registrations: &mut Vec<Registration>, number: u32)
    ensures { registrations.new.items
        ≡ filter (λ (r : RegistrationRow). not (r.object == number)) registrations.old.items }
{
    registrations.retain(|r| r.object != number);
}

/// Drops the registrations of the objects of these numbers.
pub fn drop_registered_among(registrations: &mut Vec<Registration>, numbers: &[u32])
    ensures { registrations.new.items
        ≡ among.registrations_but numbers.now registrations.old.items }
{
    registrations.retain(|r| !is_among(numbers, r.object));
}

/// Drops a client.
pub(crate) fn drop_client(rows: &mut Vec<Client>, client: u32)
    ensures { rows.new.items
        ≡ filter (λ (other : ClientRow). not (other.number == client)) rows.old.items }
{
    rows.retain(|row| row.number != client);
}
