// The law on two calls. No function here computes anything: each calls the laws that it stands on.
ghost use Rattle.lb_repeats.specs.Repeats.{CallsRepeat};

use lb_check::one_fault as one_broken_rule;
use lb_grammar::{prefix_law, rounds_law};
use lb_image::one_spelling;
use lb_lines::one_answer;
use lb_spelling::{one_fault as one_text_fault, one_tree};
use lb_syntax::one_stack_need;

/// Of two calls of `plain` with the same words, whose sources tell the same bytes, in which no count
/// of faults rises and which have memory: where they show the same image, they end with the same
/// status, the same log, and the same bytes written.
pub fn calls_repeat()
    ensures { CallsRepeat }
{
    one_tree();
    one_text_fault();
    one_broken_rule();
    one_stack_need();
    one_spelling();
    one_answer();
    prefix_law();
    rounds_law();
}
