ghost use Rattle.lines.specs.Taken.{FrameAt};

use crate::frame::Frame;
use crate::reader::LineReader;
use hexa::are_digits;
use unit::refusal::Refusal;

// The frame at a line of any text; lines count from 1, and a last line without a line feed counts too.
pub fn frame_at<'a>(text: &'a [u8], line: usize) -> Result<Frame<'a>, Refusal>
    ensures { FrameAt text.now line result }
{
    if line == 0 {
        return Err(Refusal::NotThere);
    }
    // by `let .. else`, as the parts of a line are taken everywhere, naming its refusal
    let Some(found) = LineReader::new(text).nth(line - 1) else {
        return Err(Refusal::NotThere);
    };
    let frame = Frame::try_from(found)?;
    if !are_digits(frame.digits().bytes, frame.size()) {
        return Err(Refusal::FrameDigits);
    }
    Ok(frame)
}
