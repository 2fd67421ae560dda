// The lines of replies and traces.
ghost use Rattle.std.specs.Prelude.{◌≡◌, ◌++◌, ℕ, List, IfSome, IfNone};
ghost use Rattle.lb_trace.specs.declared.Event.{Event};
ghost use Rattle.lb_lines.specs.Forms.{SpellsPair, SpellsEvent, reply_form, trace_form};

use crate::digits::word;
use crate::fault::LineKind;
use crate::form::{LineForm, Refusal};
use lb_trace::Event;
use std::alloc::Global;

impl LineForm for u32 {
    ghost form = { reply_form };

    ghost none_is_few = { tt };

    fn append(_alloc: Global, line: &[u8], values: &mut Vec<u32>) -> Result<(), Refusal> {
        let Some(word) = word(line) else {
            return Err(Refusal::Outside(LineKind::Malformed));
        };
        values.push(word)?;
        Ok(())
    }
}

impl LineForm for Event {
    ghost form = { trace_form };

    ghost none_is_few = { tt };

    fn append(_alloc: Global, line: &[u8], values: &mut Vec<Event>) -> Result<(), Refusal> {
        let Some(event) = event(line) else {
            return Err(Refusal::Outside(LineKind::Malformed));
        };
        values.push(event)?;
        Ok(())
    }
}

// The event of a line.
fn event(line: &[u8]) -> Option<Event>
    ensures found { IfSome result (SpellsEvent line.now) }
    ensures none { IfNone result ((e : Event) → SpellsEvent line.now e → ⊥) }
{
    if let Some(rest) = after(line, b"ld ") {
        let (addr, value) = pair(rest)?;
        return Some(Event::Ld { addr, value });
    }
    let (addr, value) = pair(after(line, b"st ")?)?;
    Some(Event::St { addr, value })
}

// An address and a value with one space between.
fn pair(text: &[u8]) -> Option<(u32, u32)>
    ensures found { IfSome result (λ words. SpellsPair text.now words.0 words.1) }
    ensures none { IfNone result ((addr value : ℕ) → SpellsPair text.now addr value → ⊥) }
{
    let (addr, rest) = text.split_at_checked(8)?;
    let value = after(rest, b" ")?;
    Some((word(addr)?, word(value)?))
}

/// What follows `beginning` in a text; none where the text has another beginning.
pub fn after<'a>(text: &'a [u8], beginning: &[u8]) -> Option<&'a [u8]>
    ensures found { IfSome result (λ rest. text.now ≡ beginning.now ++ rest.now) }
    ensures none { IfNone result ((rest : List ℕ) → text.now ≡ beginning.now ++ rest → ⊥) }
{
    text.strip_prefix(beginning)
}
