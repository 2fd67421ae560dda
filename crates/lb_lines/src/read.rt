// The readers of texts.
ghost use Rattle.std.specs.Prelude.{◌+◌, ◌^◌, ◌<◌, length, IfOk, IfErr};
ghost use Rattle.lb_lines.specs.Lines.{lines_of};
ghost use Rattle.lb_lines.specs.Form.{Say, Explains};
ghost use Rattle.lb_lines.specs.Forms.{trace_form, reply_form, frame_form, log_form};

use crate::fault::LineError;
use crate::form::read_lines;
use lb_trace::{Entry, Event, Frame};
use std::alloc::Global;

/// The events of a trace's text, whose first line has this number: each line is `ld A V` or `st A V`, with the
/// address A and the value V as eight hexadecimal digits of either case. A line ends with a line feed or with
/// the text, one carriage return before that is dropped, and empty lines are skipped.
///
/// # Errors
/// `Line` exactly at the first line that is otherwise; `Memory`.
pub fn read_trace(alloc: Global, text: &[u8], first_line: u32) -> Result<Vec<Event>, LineError>
    requires { first_line + length text.now < 2 ^ 32 }
    ensures read { IfOk result (λ events.
        Say trace_form (lines_of first_line text.now) events.items) }
    ensures refused { IfErr result (Explains trace_form (lines_of first_line text.now)) }
{
    read_lines(alloc, text, first_line)
}

/// The replies of a text, whose first line has this number: each line is a word, as eight hexadecimal digits of
/// either case. Lines end as those of `read_trace`.
///
/// # Errors
/// `Line` exactly at the first line that is otherwise; `Memory`.
pub fn read_replies(alloc: Global, text: &[u8], first_line: u32) -> Result<Vec<u32>, LineError>
    requires { first_line + length text.now < 2 ^ 32 }
    ensures read { IfOk result (λ replies.
        Say reply_form (lines_of first_line text.now) replies.items) }
    ensures refused { IfErr result (Explains reply_form (lines_of first_line text.now)) }
{
    read_lines(alloc, text, first_line)
}

/// The frames of a script's text, whose first line has this number: each line is a frame's bytes, two
/// hexadecimal digits of either case for each, behind a `!` where the frame is marked as faulty. There are at
/// most 64, of 1 to 2,000 bytes each. Lines end as those of `read_trace`.
///
/// # Errors
/// `Line` exactly at the first line that is otherwise; `Memory`.
pub fn read_frames(alloc: Global, text: &[u8], first_line: u32) -> Result<Vec<Frame>, LineError>
    requires { first_line + length text.now < 2 ^ 32 }
    ensures read { IfOk result (λ frames.
        Say frame_form (lines_of first_line text.now) frames.items) }
    ensures refused { IfErr result (Explains frame_form (lines_of first_line text.now)) }
{
    read_lines(alloc, text, first_line)
}

/// The entries of a log's text, whose first line has this number: each line has one or more entries, each a
/// kind's letter of `FDXRMWBSA` and a worker's digit from 0 to 7. Lines end as those of `read_trace`.
///
/// # Errors
/// `Line` exactly at the first line that is otherwise; `Memory`.
pub fn read_log(alloc: Global, text: &[u8], first_line: u32) -> Result<Vec<Entry>, LineError>
    requires { first_line + length text.now < 2 ^ 32 }
    ensures read { IfOk result (λ log.
        Say log_form (lines_of first_line text.now) log.items) }
    ensures refused { IfErr result (Explains log_form (lines_of first_line text.now)) }
{
    read_lines(alloc, text, first_line)
}
