ghost use Rattle.std.specs.Prelude.{◌≡◌, Bool};
ghost use Rattle.ubus_frames.specs.declared.frame.Frame.{Frame};
ghost use Rattle.ubus_table.specs.Table.{Table};
ghost use Rattle.ubus_table.specs.Served.{BusEvent, served};
ghost use Rattle.ubus_table.specs.Places.{IsSameButPlaces, placeless};

/// Whatever the places of open calls and of the next event: an event sends the same frames, hands
/// out the same call, and leaves the same but for places.
pub fn places_change_nothing()
    ensures { (fits : Frame → Bool) (table other : Table) (event : BusEvent) →
        placeless table ≡ placeless other →
        IsSameButPlaces (served fits table event) (served fits other event) }
{}
