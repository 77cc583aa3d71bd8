// Each body calls the laws that it stands on, and the contract is the law.
ghost use Rattle.std.specs.Prelude.{◌≡◌, ◌≤◌, ◌++◌, ◌∷◌, ℕ, List, length, true, Some};
ghost use Rattle.ubus_frames.specs.declared.frame.Frame.{Frame};
ghost use Rattle.ubus_acl.specs.declared.acl.Acl.{Acl};
ghost use Rattle.ubus_table.specs.declared.rows.Client.{Client};
ghost use Rattle.ubus_table.specs.Table.{Table, nobody, client_of};
ghost use Rattle.ubus_table.specs.Invoked.{way_of};
ghost use Rattle.ubus_table.specs.Served.{BusEvent, frame};
ghost use Rattle.ubus_table.specs.Run.{Asks, Ends, IsInvoke, Stays, is_over, statuses, statuses_to};
ghost use Rattle.ubus_send.specs.declared.outbox.Outgoing.{Outgoing};
ghost use Rattle.ubus_send.specs.Fits.{fits};
ghost use Rattle.ubus_send.specs.Out.{out_of};
ghost use Rattle.ubus_broker.specs.Ran.{Ran, marked};

use ubus_table::places_change_nothing;

/// A broker sends what the definitions send from the first event on, in this order, and nothing
/// else.
pub fn sent_as_defined()
    ensures { (acl : Acl) (events : List BusEvent) (out : List Outgoing) (now : Table) →
        Ran (nobody acl) events out now → out ≡ out_of (marked acl events) }
{
    places_change_nothing();
}

/// No INVOKE has two STATUS sent for it.
pub fn at_most_one_status()
    ensures { (acl : Acl) (earlier later : List BusEvent) (client : ℕ) (message : Frame)
        (out : List Outgoing) (now : Table) → IsInvoke message →
        Ran (nobody acl) (earlier ++ frame client message ∷ later) out now →
        (out ≡ out_of (marked acl (earlier ++ frame client message ∷ later)))
        × (statuses (length earlier) (marked acl (earlier ++ frame client message ∷ later)) ≤ 1) }
{
    sent_as_defined();
    ubus_table::at_most_one_status();
}

/// An INVOKE that asks for a reply and is refused, or answered by the event object, has one STATUS
/// sent for it, whatever comes later.
pub fn over_at_once()
    ensures { (acl : Acl) (earlier later : List BusEvent) (number : ℕ) (client : Client)
        (message : Frame) (first second : List Outgoing) (before now : Table) → Asks message →
        Ran (nobody acl) earlier first before → client_of before number ≡ Some client →
        is_over (way_of fits before client message) ≡ true →
        Ran before (frame number message ∷ later) second now →
        (first ++ second ≡ out_of (marked acl (earlier ++ frame number message ∷ later)))
        × (statuses (length earlier) (marked acl (earlier ++ frame number message ∷ later)) ≡ 1) }
{
    places_change_nothing();
    sent_as_defined();
    ubus_table::over_at_once();
}

/// An INVOKE that asks for a reply has one STATUS sent for it once its object's owner has sent its
/// STATUS, removed the object or left, or the local object has answered, whatever comes later,
/// unless its caller left first.
pub fn answered_once()
    ensures { (acl : Acl) (earlier between later : List BusEvent) (event : BusEvent)
        (number object : ℕ) (client : Client) (message : Frame)
        (first second third : List Outgoing) (before middle now : Table) →
        Asks message → message.id ≡ Some object →
        Ran (nobody acl) earlier first before → client_of before number ≡ Some client →
        Ran before (frame number message ∷ between) second middle → Stays number between →
        Ends middle number message.seq object event → Ran middle (event ∷ later) third now →
        (first ++ second ++ third
        ≡ out_of (marked acl (earlier ++ frame number message ∷ between ++ event ∷ later)))
        × (statuses (length earlier)
        (marked acl (earlier ++ frame number message ∷ between ++ event ∷ later)) ≡ 1) }
{
    places_change_nothing();
    sent_as_defined();
    ubus_table::answered_once();
}

/// Each STATUS that is sent for an INVOKE that asks for a reply goes to its caller, with its
/// sequence.
pub fn sent_to_its_caller()
    ensures { (acl : Acl) (earlier later : List BusEvent) (number : ℕ) (client : Client)
        (message : Frame) (first second : List Outgoing) (before now : Table) → Asks message →
        Ran (nobody acl) earlier first before → client_of before number ≡ Some client →
        Ran before (frame number message ∷ later) second now →
        (first ++ second ≡ out_of (marked acl (earlier ++ frame number message ∷ later)))
        × (statuses_to (length earlier) number message.seq
        (marked acl (earlier ++ frame number message ∷ later))
        ≡ statuses (length earlier) (marked acl (earlier ++ frame number message ∷ later))) }
{
    places_change_nothing();
    sent_as_defined();
    ubus_table::sent_to_its_caller();
}
