ghost use Rattle.std.specs.Prelude.{◌≡◌, ◌≢◌, ◌≤◌, [], IfOk, IfErr, OnErr, IfSome, IfNone, Err};
ghost use Rattle.std.specs.Prelude.{MatchOption, List, ℕ, drop, length};
ghost use Rattle.ubus_frames.specs.declared.frame_error.FrameError.{FrameError};
ghost use Rattle.ubus_frames.specs.Fault.{IsFrameFault};
ghost use Rattle.ubus_frames.specs.Feeding.{HasFound, HasFront, Moves, StandInFront};
ghost use Rattle.ubus_frames.specs.Layout.{BeginsWithFrame, IsUnfinished};
ghost use Rattle.ubus_frames.specs.Stream.{Feeds, Holds, IsRest, Refuses, Takes, behind_frame};
ghost use Rattle.ubus_frames.specs.Stream.{empty};

use crate::{Frame, FrameError, frame_size, read_frame};
use plane_io::Memory;
use std::alloc::Global;
use std::collections::VecDeque;
use std::marker::Model;

/// A stream of frames, of which the bytes come in pieces.
///
/// It keeps what was not taken yet: the whole frames, and the bytes behind them.
#[derive(Drop)]
pub struct Feeder {
    ready: VecDeque<Frame>,
    rest: Vec<u8>,
    fault: Option<FrameError>,
}

impl Model for Feeder {
    ghost use Rattle.std.specs.Prelude.{ℕ, List, refl};
    ghost use Rattle.std.specs.Coded.{code_by, coded×, coded_list, coded_ℕ};
    ghost use Rattle.ubus_frames.specs.contracts.frame.Frame.{the_row};
    ghost use Rattle.ubus_frames.specs.declared.frame.Frame.{Frame};
    ghost use Rattle.ubus_frames.specs.Feeding.{IsFaultOf};
    ghost use Rattle.ubus_frames.specs.Stream.{Stream};

    ghost Value = { Stream };

    ghost coded = { code_by (List Frame × List ℕ)
        (coded× (coded_list the_row.coded) (coded_list coded_ℕ))
        (λ stream. (stream.frames, stream.rest))
        (λ parts. record { frames = parts.0; rest = parts.1 }) (λ _. refl) };

    ghost view = { λ feeder. record { frames = feeder.ready.items; rest = feeder.rest.items } };

    ghost invariant = { λ feeder. IsFaultOf feeder.rest.items feeder.fault };
}

impl Feeder {
    /// A feeder that was fed nothing. It takes no memory.
    pub fn new(alloc: Global) -> Feeder
        ensures { result ≡ empty }
    {
        Feeder {
            ready: VecDeque::new(alloc),
            rest: Vec::new(alloc),
            fault: None,
        }
    }

    /// Appends a piece of the stream, after which the frames that are now whole can be taken.
    ///
    /// # Errors
    ///
    /// The fault that stands behind the whole frames. The piece that brings it is appended, and the
    /// frames in front of it can be taken; each later feed is refused for the same fault and
    /// appends nothing. Want of memory changes nothing.
    pub fn feed(&mut self, piece: &[u8]) -> Result<(), FrameError>
        ensures fed { IfOk result (λ _. Feeds piece.now self.old self.new) }
        ensures refused { (error : FrameError) → result ≡ Err error → error ≢ FrameError.Memory →
            Refuses piece.now self.old self.new error }
        ensures memory { result ≡ Err FrameError.Memory → self.new ≡ self.old }
        ensures sound { result ≡ Err FrameError.Memory → IsUnfinished self.old.rest }
    {
        if let Some(fault) = self.fault {
            return Err(fault);
        }
        let start = self.rest.len();
        self.rest.extend_from_slice(piece)?;
        match move_frames(&mut self.ready, &mut self.rest) {
            Ok(None) => Ok(()),
            Ok(Some(fault)) => {
                self.fault = Some(fault);
                Err(fault)
            }
            Err(_) => {
                self.rest.truncate(start);
                Err(FrameError::Memory)
            }
        }
    }

    /// Takes the next whole frame out, or answers none where there is none. It takes no memory.
    pub fn take(&mut self) -> Option<Frame>
        ensures { MatchOption result ((self.old.frames ≡ []) × (self.new ≡ self.old))
            (λ frame. Takes frame self.old self.new) }
    {
        self.ready.pop_front()
    }
}

/// Moves the frames in front of the bytes to the end of the others, and answers the fault behind
/// them.
fn move_frames(
    ready: &mut VecDeque<Frame>,
    bytes: &mut Vec<u8>,
) -> Result<Option<FrameError>, Memory>
    ensures moved { IfOk result (λ fault.
        Moves ready.old.items ready.new.items bytes.old.items bytes.new.items fault) }
    ensures kept { OnErr result
        ((ready.new.items ≡ ready.old.items) × (bytes.new.items ≡ bytes.old.items)) }
{
    let count = ready.len();
    match push_frames(ready, bytes.as_slice()) {
        Ok(front) => {
            remove_front(bytes, front.size);
            Ok(front.fault)
        }
        Err(memory) => {
            ready.truncate(count);
            Err(memory)
        }
    }
}

/// Removes so many bytes in front.
fn remove_front(bytes: &mut Vec<u8>, size: usize)
    requires { size ≤ length bytes.old.items }
    ensures { bytes.new.items ≡ drop size bytes.old.items }
{
    if size == 0 {
        return;
    }
    let end = bytes.len();
    bytes.copy_within(size..end, 0);
    bytes.truncate(end - size);
}

/// How many bytes the whole frames in front take, and the fault behind them.
#[derive(Drop)]
struct Found {
    size: usize,
    fault: Option<FrameError>,
}

/// Pushes the whole frames in front of the bytes behind the others. Where memory is wanting, some
/// of them stay there.
fn push_frames(ready: &mut VecDeque<Frame>, bytes: &[u8]) -> Result<Found, Memory>
    ensures found { IfOk result (λ front.
        HasFound bytes.now ready.old.items ready.new.items front) }
    ensures others { OnErr result (StandInFront ready.old.items ready.new.items) }
{
    ready.reserve(count_whole(bytes))?;
    let alloc = *ready.allocator();
    let (mut rest, mut size) = (bytes, 0);
    loop {
        match read_front(alloc, rest) {
            Ok(Some(front)) => {
                ready.push_back(front.frame)?;
                size += front.size;
                rest = front.behind;
            }
            Ok(None) => return Ok(Found { size, fault: None }),
            Err(error) => {
                let fault = Some(error.fault()?);
                return Ok(Found { size, fault });
            }
        }
    }
}

/// How many frames are whole by their heads, from the first byte on.
fn count_whole(bytes: &[u8]) -> usize
    ensures { result ≤ length bytes.now }
{
    let (mut rest, mut count) = (bytes, 0);
    while let Ok(Some(size)) = frame_size(rest) {
        let (_, behind) = rest.split_at(size);
        rest = behind;
        count += 1;
    }
    count
}

/// A frame, how many bytes it takes, and what is behind it.
#[derive(Drop)]
struct Front<'a> {
    frame: Frame,
    size: usize,
    behind: &'a [u8],
}

/// Reads the frame in front, where it is whole.
fn read_front(alloc: Global, bytes: &[u8]) -> Result<Option<Front<'_>>, FrameError>
    ensures found { IfOk result (λ front.
        MatchOption front (IsUnfinished bytes.now) (λ whole. HasFront bytes.now whole)) }
    ensures refused { (error : FrameError) → result ≡ Err error → error ≢ FrameError.Memory →
        IsFrameFault bytes.now error }
{
    let Some(size) = frame_size(bytes)? else {
        return Ok(None);
    };
    let (whole, behind) = bytes.split_at(size);
    let frame = read_frame(alloc, whole)?;
    Ok(Some(Front {
        frame,
        size,
        behind,
    }))
}
