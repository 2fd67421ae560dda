// Laws of what texts say: no function here computes anything.
ghost use Rattle.lb_lines.specs.Forms.{trace_form, reply_form, frame_form, log_form};
ghost use Rattle.lb_lines.specs.Laws.{TraceSaysItself, LogSaysItself, IsOneAnswer};

/// A trace and a log that are printed are read again as the same lists.
pub fn printed_says_itself()
    ensures trace { TraceSaysItself }
    ensures log { LogSaysItself }
{}

/// A text says at most one list of values and has at most one first line outside its form, and never both.
pub fn one_answer()
    ensures trace { IsOneAnswer trace_form }
    ensures replies { IsOneAnswer reply_form }
    ensures frames { IsOneAnswer frame_form }
    ensures log { IsOneAnswer log_form }
{}
