//! A law of frames.

ghost use Rattle.resp_frames.specs.Laws.{AFrameIsTheOnlyOne};

use resp_value::laws::no_spelling_begins_another;

/// No other spelling begins where a frame does.
pub fn a_frame_is_the_only_one()
    ensures { AFrameIsTheOnlyOne }
{
    no_spelling_begins_another();
}
