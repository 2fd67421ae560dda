// A program that keeps every rule.
ghost use Rattle.std.specs.Prelude.{◌≡◌};
ghost use Rattle.lb_syntax.specs.Tree.{program_of};
ghost use Rattle.lb_syntax.specs.Needs.{code_need};
ghost use Rattle.lb_syntax.specs.Calls.{IsStackNeed};
ghost use Rattle.lb_syntax.specs.Rules.{KeepsRules};
ghost use Rattle.lb_check.specs.Needed.{AreNeedsOf};

use lb_syntax::Program;
use std::marker::Model;

/// What a program needs to run.
#[derive(Clone, Copy, Debug, PartialEq, Eq)]
pub struct Needs {
    /// Words of code, of 4 bytes each.
    pub words: u64,
    /// Bytes of stack.
    pub stack: u64,
}

/// A program that keeps every rule of the language. Contracts see it as the program.
#[derive(Drop)]
pub struct Checked {
    program: Program,
    needs: Needs,
}

impl Model for Checked {
    ghost use Rattle.lb_syntax.specs.declared.tree.Program.{Program};
    ghost use Rattle.lb_syntax.specs.contracts.tree.Cmd as cmd;
    ghost use Rattle.std.specs.Coded.{codes};
    ghost use Rattle.lb_syntax.specs.Tree.{program_of};
    ghost use Rattle.lb_syntax.specs.Rules.{KeepsRules};
    ghost use Rattle.lb_check.specs.Needed.{AreNeedsOf};

    ghost Value = { Program };

    ghost coded = { Prim.hlevel (codes, cmd.the_row.coded) };

    ghost view = { λ c. c.program };

    ghost invariant = { λ c. KeepsRules (program_of c.program) × AreNeedsOf (program_of c.program) c.needs };
}

impl Checked {
    // A program that keeps every rule, with its needs.
    pub(crate) fn new(program: Program, needs: Needs) -> Checked
        requires rules { KeepsRules (program_of program) }
        requires needs { AreNeedsOf (program_of program) needs }
        ensures { result ≡ program }
    {
        Checked { program, needs }
    }

    /// The program.
    pub fn program(&self) -> &Program
        ensures program { result.now ≡ self.now }
        ensures rules { KeepsRules (program_of self.now) }
    {
        &self.program
    }

    /// How many words of code and bytes of stack it needs.
    pub fn needs(&self) -> Needs
        ensures words { result.words ≡ code_need (program_of self.now) }
        ensures stack { IsStackNeed (program_of self.now) result.stack }
    {
        self.needs
    }
}
