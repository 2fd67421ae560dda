// The source of an input, and the sections behind it.
ghost use Rattle.std.specs.Prelude.{◌≡◌, ◌≤◌, ◌<◌, ◌+◌, ◌∷◌, ◌++◌, [], ◌^◌, ℕ, List, length, map, IfOk, OnOk, IfErr};
ghost use Rattle.lb_syntax.specs.Tree.{program_of};
ghost use Rattle.lb_syntax.specs.Rules.{KeepsRules};
ghost use Rattle.lb_check.specs.Parts.{parts};
ghost use Rattle.lb_sections.specs.Sections.{seen, section, sections};
ghost use Rattle.lb_words.specs.declared.job.Job.{Job};
ghost use Rattle.lb_system.specs.Questions.{Question, Sections, Grammar, InForm, Frames, Entries, Events, Replies, SaysReplies, SaysFrames, SaysLog, SaysEvents, checked, replied};
ghost use Rattle.lb_system.specs.Answers.{most_input};
ghost use Rattle.lb_system.specs.InternalAnswers.{BreaksRules, IsOnly, IsOpened, IsRefusalOf, LeavesForm, LeavesGrammar, without_image};

use crate::answer::Refused;
use crate::fault::Fault;
use lb_check::{Checked, check};
use lb_lines::{read_frames, read_log, read_replies, read_trace};
use lb_sections::{Section, section_at, sections_of};
use lb_syntax::Program;
use lb_text::read_program;
use lb_trace::{Entry, Event, Frame};
use std::alloc::Global;

/// The source, which keeps the rules, and all sections, of which there are at most so many.
pub fn open_checked<'a>(
    alloc: Global,
    input: &'a [u8],
    most: u32,
) -> Result<(Checked, Vec<Section<'a>>), Refused>
    requires short { length input.now ≤ most_input }
    requires some { 1 ≤ most }
    ensures opened { IfOk result (λ o. IsOpened most input.now (program_of o.0)) }
    ensures rules { IfOk result (λ o. KeepsRules (program_of o.0)) }
    ensures list { IfOk result (λ o. map seen o.1.items ≡ sections input.now) }
    ensures refused { IfErr result (λ r. (job : Job) (qs : List Question)
        → IsRefusalOf (Sections most ∷ (checked ++ qs)) job input.now r) }
{
    let (program, list) = open_read(alloc, input, most)?;
    let checked = check_rules(alloc, program)?;
    Ok((checked, list))
}

/// The source, which keeps the rules, and the replies of the section behind it.
pub fn open_replied(alloc: Global, input: &[u8]) -> Result<(Checked, Vec<u32>), Refused>
    requires { length input.now ≤ most_input }
    ensures opened { IfOk result (λ o. IsOpened 2 input.now (program_of o.0)) }
    ensures rules { IfOk result (λ o. KeepsRules (program_of o.0)) }
    ensures replies { IfOk result (λ o. SaysReplies (section 1 input.now) o.1.items) }
    ensures refused { IfErr result (λ r. (job : Job) → IsRefusalOf replied job input.now r) }
{
    let (program, list) = open_checked(alloc, input, 2)?;
    let replies = replies_of(alloc, &section_at(&list, 1))?;
    Ok((program, replies))
}

/// The source, which keeps the rules, the frames of the section behind it, and all sections, of which
/// there are at most so many.
pub fn open_framed<'a>(
    alloc: Global,
    input: &'a [u8],
    most: u32,
) -> Result<(Checked, Vec<Frame>, Vec<Section<'a>>), Refused>
    requires short { length input.now ≤ most_input }
    requires some { 1 ≤ most }
    ensures opened { IfOk result (λ o. IsOpened most input.now (program_of o.0)) }
    ensures rules { IfOk result (λ o. KeepsRules (program_of o.0)) }
    ensures frames { IfOk result (λ o. SaysFrames (section 1 input.now) o.1.items) }
    ensures list { IfOk result (λ o. map seen o.2.items ≡ sections input.now) }
    ensures refused { IfErr result (λ r. (job : Job) (qs : List Question)
        → IsRefusalOf (Sections most ∷ (checked ++ InForm Frames 1 ∷ qs)) job input.now r) }
{
    let (program, list) = open_checked(alloc, input, most)?;
    let frames = frames_of(alloc, &section_at(&list, 1))?;
    Ok((program, frames, list))
}

// The replies that a section says.
fn replies_of(alloc: Global, section: &Section<'_>) -> Result<Vec<u32>, Fault>
    requires { (seen section.now).line + length (seen section.now).text < 2 ^ 32 }
    ensures read { IfOk result (λ replies. SaysReplies (seen section.now) replies.items) }
    ensures refused { IfErr result (LeavesForm Replies (seen section.now)) }
{
    Ok(read_replies(alloc, section.text, section.line)?)
}

/// The frames that a section says.
pub fn frames_of(alloc: Global, section: &Section<'_>) -> Result<Vec<Frame>, Fault>
    requires { (seen section.now).line + length (seen section.now).text < 2 ^ 32 }
    ensures read { IfOk result (λ frames. SaysFrames (seen section.now) frames.items) }
    ensures refused { IfErr result (LeavesForm Frames (seen section.now)) }
{
    Ok(read_frames(alloc, section.text, section.line)?)
}

/// The log that a section says.
pub fn log_of(alloc: Global, section: &Section<'_>) -> Result<Vec<Entry>, Fault>
    requires { (seen section.now).line + length (seen section.now).text < 2 ^ 32 }
    ensures read { IfOk result (λ log. SaysLog (seen section.now) log.items) }
    ensures refused { IfErr result (LeavesForm Entries (seen section.now)) }
{
    Ok(read_log(alloc, section.text, section.line)?)
}

/// The accesses of devices that a section says.
pub fn events_of(alloc: Global, section: &Section<'_>) -> Result<Vec<Event>, Fault>
    requires { (seen section.now).line + length (seen section.now).text < 2 ^ 32 }
    ensures read { IfOk result (λ events. SaysEvents (seen section.now) events.items) }
    ensures refused { IfErr result (LeavesForm Events (seen section.now)) }
{
    Ok(read_trace(alloc, section.text, section.line)?)
}

/// The source, which need not keep the rules, and all sections, of which there are at most so many.
pub fn open_read<'a>(
    alloc: Global,
    input: &'a [u8],
    most: u32,
) -> Result<(Program, Vec<Section<'a>>), Refused>
    requires short { length input.now ≤ most_input }
    requires some { 1 ≤ most }
    ensures opened { IfOk result (λ o. IsOpened most input.now (program_of o.0)) }
    ensures list { IfOk result (λ o. map seen o.1.items ≡ sections input.now) }
    ensures small { IfOk result (λ o. parts (program_of o.0) < 2 ^ 30) }
    ensures refused { IfErr result (λ r. (job : Job) (qs : List Question)
        → IsRefusalOf (Sections most ∷ Grammar ∷ qs) job input.now r) }
{
    let list = cut(alloc, input, most)?;
    let source = section_at(&list, 0);
    let program = read(alloc, source.text)?;
    Ok((program, list))
}

/// The sections, of which there are at most so many.
pub fn cut<'a>(alloc: Global, input: &'a [u8], most: u32) -> Result<Vec<Section<'a>>, Fault>
    requires short { length input.now ≤ most_input }
    requires some { 1 ≤ most }
    ensures list { IfOk result (λ list. map seen list.items ≡ sections input.now) }
    ensures few { IfOk result (λ list. length (sections input.now) ≤ most) }
    ensures refused { IfErr result (λ f. (job : Job) (qs : List Question)
        → IsRefusalOf (Sections most ∷ qs) job input.now (without_image f)) }
{
    Ok(sections_of(alloc, input, most)?)
}

// The program of a source.
fn read(alloc: Global, text: &[u8]) -> Result<Program, Fault>
    requires { length text.now ≤ most_input }
    ensures read { IfOk result (λ program. IsOnly text.now (program_of program)) }
    ensures small { IfOk result (λ program. parts (program_of program) < 2 ^ 30) }
    ensures refused { IfErr result (LeavesGrammar text.now) }
{
    Ok(read_program(alloc, text)?)
}

// The program, which keeps the rules, or the first that it breaks.
fn check_rules(alloc: Global, program: Program) -> Result<Checked, Fault>
    requires { parts (program_of program) < 2 ^ 30 }
    ensures same { IfOk result (λ c. c ≡ program) }
    ensures rules { OnOk result (KeepsRules (program_of program)) }
    ensures refused { IfErr result (BreaksRules (program_of program)) }
{
    Ok(check(alloc, program)?)
}
