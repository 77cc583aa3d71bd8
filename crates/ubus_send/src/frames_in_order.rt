ghost use Rattle.std.specs.Prelude.{◌≡◌, ◌≤◌, OnOk, MatchOption, insert, length, unwrap_or, []};
ghost use Rattle.plane_words.specs.InOrder.{put_in};
ghost use Rattle.ubus_send.specs.Frames.{by_path};

use plane_io::Memory;
use std::cmp::Ordering;
use ubus_frames::Frame;

/// Puts a frame in its place by its path. Where a frame of this path is there, it stays.
pub fn put_frame(frames: &mut Vec<Frame>, frame: Frame) -> Result<(), Memory>
    ensures { OnOk result (frames.new.items ≡ put_in by_path frame frames.old.items) }
{
    let Some(place) = place_of(frames, &frame) else {
        return Ok(());
    };
    frames.insert(place, frame)?;
    Ok(())
}

fn place_of(frames: &[Frame], frame: &Frame) -> Option<usize>
    ensures { MatchOption result (put_in by_path frame.now frames.now ≡ frames.now) (λ place.
        (place ≤ length frames.now)
        × (put_in by_path frame.now frames.now ≡ insert frames.now place frame.now)) }
{
    for (place, other) in frames.iter().enumerate() {
        match path_of(frame).cmp(path_of(other)) {
            Ordering::Less => return Some(place),
            Ordering::Equal => return None,
            Ordering::Greater => {}
        }
    }
    Some(frames.len())
}

fn path_of(frame: &Frame) -> &[u8]
    ensures { result.now ≡ unwrap_or frame.now.path [] }
{
    match &frame.path {
        Some(path) => path.as_bytes(),
        None => b"",
    }
}
