// Laws over every list of events, whatever test tells which frames fit.
ghost use Rattle.std.specs.Prelude.{◌≡◌, ◌≤◌, ◌+◌, ◌++◌, ◌∷◌, ℕ, Bool, List, length, true, Some};
ghost use Rattle.ubus_frames.specs.declared.frame.Frame.{Frame};
ghost use Rattle.ubus_acl.specs.declared.acl.Acl.{Acl};
ghost use Rattle.ubus_table.specs.Table.{Client, nobody, client_of};
ghost use Rattle.ubus_table.specs.Invoked.{way_of};
ghost use Rattle.ubus_table.specs.Served.{BusEvent, frame};
ghost use Rattle.ubus_table.specs.Run.{Asks, Ends, IsInvoke, Stays, after, is_over, open_count};
ghost use Rattle.ubus_table.specs.Run.{sent_by, statuses, statuses_to};

/// No INVOKE has two STATUS sent for it.
pub fn at_most_one_status()
    ensures { (fits : Frame → Bool) (acl : Acl) (earlier later : List BusEvent)
        (client : ℕ) (message : Frame) → IsInvoke message →
        statuses (length earlier)
        (sent_by fits (nobody acl) (earlier ++ frame client message ∷ later)) ≤ 1 }
{}

/// While its caller stays, an INVOKE that asks for a reply is open, or has one STATUS sent for it,
/// and not both.
pub fn answered_or_open()
    ensures { (fits : Frame → Bool) (acl : Acl) (earlier later : List BusEvent)
        (number : ℕ) (client : Client) (message : Frame) → Asks message →
        client_of (after fits (nobody acl) earlier) number ≡ Some client → Stays number later →
        statuses (length earlier)
        (sent_by fits (nobody acl) (earlier ++ frame number message ∷ later))
        + open_count (length earlier)
        (after fits (nobody acl) (earlier ++ frame number message ∷ later)).calls ≡ 1 }
{}

/// An INVOKE that asks for a reply and is refused, or answered by the event object, has one STATUS
/// sent for it, whatever comes later.
pub fn over_at_once()
    ensures { (fits : Frame → Bool) (acl : Acl) (earlier later : List BusEvent)
        (number : ℕ) (client : Client) (message : Frame) → Asks message →
        client_of (after fits (nobody acl) earlier) number ≡ Some client →
        is_over (way_of fits (after fits (nobody acl) earlier) client message) ≡ true →
        statuses (length earlier)
        (sent_by fits (nobody acl) (earlier ++ frame number message ∷ later)) ≡ 1 }
{}

/// An INVOKE that asks for a reply has one STATUS sent for it once its object's owner has sent its
/// STATUS, removed the object or left, or the local object has answered, whatever comes later,
/// unless its caller left first.
pub fn answered_once()
    ensures { (fits : Frame → Bool) (acl : Acl) (earlier between later : List BusEvent)
        (event : BusEvent) (number object : ℕ) (client : Client) (message : Frame) →
        Asks message → message.id ≡ Some object →
        client_of (after fits (nobody acl) earlier) number ≡ Some client → Stays number between →
        Ends (after fits (nobody acl) (earlier ++ frame number message ∷ between))
        number message.seq object event →
        statuses (length earlier) (sent_by fits (nobody acl)
        (earlier ++ frame number message ∷ between ++ event ∷ later)) ≡ 1 }
{}

/// Each STATUS that is sent for an INVOKE that asks for a reply goes to its caller, with its
/// sequence.
pub fn sent_to_its_caller()
    ensures { (fits : Frame → Bool) (acl : Acl) (earlier later : List BusEvent)
        (number : ℕ) (client : Client) (message : Frame) → Asks message →
        client_of (after fits (nobody acl) earlier) number ≡ Some client →
        statuses_to (length earlier) number message.seq
        (sent_by fits (nobody acl) (earlier ++ frame number message ∷ later))
        ≡ statuses (length earlier)
        (sent_by fits (nobody acl) (earlier ++ frame number message ∷ later)) }
{}
