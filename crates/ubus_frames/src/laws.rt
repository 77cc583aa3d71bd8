ghost use Rattle.std.specs.Prelude.{◌≡◌, ◌≤◌, ◌++◌, [], List, ℕ, length};
ghost use Rattle.ubus_frames.specs.declared.frame.Frame.{Frame};
ghost use Rattle.ubus_frames.specs.declared.frame_error.FrameError.{FrameError};
ghost use Rattle.ubus_frames.specs.Fault.{IsFrameFault};
ghost use Rattle.ubus_frames.specs.Layout.{BeginsWithFrame, IsUnfinished, SpellsFrame};
ghost use Rattle.ubus_frames.specs.Stream.{Appends, Divides, Holds, IsRest, Reaches, Stream, Takes};
ghost use Rattle.ubus_frames.specs.Stream.{behind_frame};
ghost use Rattle.ubus_frames.specs.Written.{FitsFrame, IsTyped, written_frame};

/// Bytes divide into frames and a rest in one way, and no other.
pub fn one_division()
    ensures there { (bytes : List ℕ) →
        (frames : List Frame) × (rest : List ℕ) × Divides bytes frames rest }
    ensures only { (bytes : List ℕ) (frames others : List Frame) (rest end : List ℕ) →
        Divides bytes frames rest → Divides bytes others end → (others ≡ frames) × (end ≡ rest) }
{}

/// Bytes have at most one fault, and then no frame in front, and more bytes do not mend them.
pub fn one_frame_fault()
    ensures only { (bytes : List ℕ) (error other : FrameError) → IsFrameFault bytes error →
        IsFrameFault bytes other → other ≡ error }
    ensures no_frame { (bytes : List ℕ) (error : FrameError) (frame : Frame) →
        IsFrameFault bytes error → BeginsWithFrame bytes frame → ⊥ }
    ensures not_unfinished { (bytes : List ℕ) (error : FrameError) → IsFrameFault bytes error →
        IsUnfinished bytes → ⊥ }
    ensures stands { (bytes more : List ℕ) (error : FrameError) → IsFrameFault bytes error →
        IsFrameFault (bytes ++ more) error }
{}

/// A feed appends its piece to whatever bytes the feeder holds.
pub fn fed_bytes()
    ensures { (bytes piece : List ℕ) (before after : Stream) → Appends piece before after →
        Holds before bytes → Holds after (bytes ++ piece) }
{}

/// What is taken is the frame in front of whatever bytes the feeder holds, and its bytes go; none
/// is taken where no whole frame is in front.
pub fn taken_bytes()
    ensures first { (bytes : List ℕ) (frame : Frame) (before after : Stream) →
        Takes frame before after → Holds before bytes →
        BeginsWithFrame bytes frame × Holds after (behind_frame bytes) }
    ensures none { (bytes : List ℕ) (now : Stream) → now.frames ≡ [] → Holds now bytes →
        IsRest bytes }
{}

/// However the bytes were cut into pieces and whenever frames were taken: the frames taken, those
/// that wait, and the rest are the division of all bytes. So they depend on the bytes alone.
pub fn divided_however_cut()
    ensures divided { (bytes : List ℕ) (taken : List Frame) (now : Stream) →
        Reaches bytes taken now → Divides bytes (taken ++ now.frames) now.rest }
    ensures alone { (bytes : List ℕ) (taken other : List Frame) (now end : Stream) →
        Reaches bytes taken now → Reaches bytes other end →
        (other ++ end.frames ≡ taken ++ now.frames) × (end.rest ≡ now.rest) }
{}

/// Bytes to which a frame is still to come are at most 1,048,583.
pub fn short_rest()
    ensures { (rest : List ℕ) → IsUnfinished rest → length rest ≤ 1048583 }
{}

/// What is written spells the frame, and no other.
pub fn written_reads_back()
    ensures spells { (frame : Frame) → FitsFrame frame → IsTyped frame →
        SpellsFrame (written_frame frame) frame }
    ensures only { (frame other : Frame) → FitsFrame frame → IsTyped frame →
        SpellsFrame (written_frame frame) other → other ≡ frame }
{}
