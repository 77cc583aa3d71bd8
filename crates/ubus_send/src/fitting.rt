ghost use Rattle.std.specs.Prelude.{◌≡◌};
ghost use Rattle.ubus_send.specs.Fits.{Tells, fits};

use ubus_frames::{Frame, frame_fits};

/// The test of the definitions tells which frames have a spelling.
pub fn fits_tells()
    ensures { Tells fits }
{}

/// Whether the frame fits.
pub fn does_fit(frame: &Frame) -> bool
    ensures { result ≡ fits frame.now }
{
    frame_fits(frame)
}
