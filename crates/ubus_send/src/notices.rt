ghost use Rattle.std.specs.Prelude.{◌≡◌};
ghost use Rattle.ubus_table.specs.Frames as spec;

use crate::{HELLO, NOTIFY, UNSUBSCRIBE};
use ubus_frames::Frame;

/// What a new client is sent: its number.
pub fn hello(client: u32) -> Frame
    ensures { result ≡ spec.hello client }
{
    Frame::new(HELLO, 0, client)
}

/// What the owner of an object is sent when its first subscriber came, or its last one went.
pub fn active(object: u32, flag: bool) -> Frame
    ensures { result ≡ spec.active object flag }
{
    let mut frame = Frame::new(NOTIFY, 0, 0);
    frame.id = Some(object);
    frame.active = Some(flag);
    frame
}

/// What the owner of a subscriber is sent when the object that it is subscribed to is gone.
pub fn gone(subscriber: u32, target: u32) -> Frame
    ensures { result ≡ spec.gone subscriber target }
{
    let mut frame = Frame::new(UNSUBSCRIBE, 0, 0);
    frame.id = Some(subscriber);
    frame.target = Some(target);
    frame
}
