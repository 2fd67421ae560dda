// The code of a function's expressions and commands.
ghost use Rattle.std.specs.Prelude.{◌≡◌, ◌<◌, ◌≤◌, ◌+◌, ◌^◌, [], ◌∷◌, map, length, IfOk, OnOk};
ghost use Rattle.lb_syntax.specs.declared.limits.TheConstants.{MOST_FUNCTIONS};
ghost use Rattle.lb_syntax.specs.Names.{IsName};
ghost use Rattle.lb_syntax.specs.Tree.{procedure_of, term_of};
ghost use Rattle.lb_syntax.specs.Rules.{function_names};
ghost use Rattle.lb_syntax.specs.WellFormed.{IsWord};
ghost use Rattle.lb_flat.specs.Code.{Nothing, Sequence};
ghost use Rattle.lb_flat.specs.Flat.{flat_command, flat_block};
ghost use Rattle.lb_flat.specs.Flattened.{place_in};
ghost use Rattle.lb_flat.specs.InternalFlatten.{emitted, Writes};

use crate::flat::{FlatBlock, FlatCmd};
use crate::numbers::VariableNumbers;
use lb_syntax::{Action, Block, Cmd, Expr, Function, Name, Width};
use sqlite_items::Items;
use std::alloc::{AllocError, Global};
use std::marker::Model;

/// What the code of a function is written by: the functions of the program, and the names of the function's
/// variables, each once. Both are numbered by their places.
#[derive(Drop)]
pub struct Scope<'a> {
    alloc: Global,
    functions: &'a [Function],
    names: VariableNumbers<'a>,
}

impl<'a> Model for Scope<'a> {
    ghost use Rattle.lb_flat.specs.InternalFlatten.{Numbering, numbering_of, IsNumberable};

    ghost Value = { Numbering };

    ghost view = { λ s. numbering_of s.functions.now s.names };

    ghost invariant = { λ s. IsNumberable s.functions.now s.names };
}

impl<'a> Scope<'a> {
    ghost use Rattle.std.specs.Prelude.{◌≡◌, ◌<◌, ◌≤◌, ◌^◌, ℕ, map, length, None, All, IfOk, OnOk};
    ghost use Rattle.lb_syntax.specs.declared.limits.TheConstants.{MOST_FUNCTIONS};
    ghost use Rattle.lb_syntax.specs.Names.{IsName};
    ghost use Rattle.lb_syntax.specs.Tree.{Variable, Sets, Stores, Calls, Interacts, procedure_of, term_of, command_of, block_of};
    ghost use Rattle.lb_syntax.specs.Rules.{function_names};
    ghost use Rattle.lb_syntax.specs.WellFormed.{IsWord, IsTerm, IsCommand, IsBlock};
    ghost use Rattle.lb_flat.specs.Code.{Reserve, Branch, Loop, Nothing, Sequence};
    ghost use Rattle.lb_flat.specs.Flat.{flat_block};
    ghost use Rattle.lb_flat.specs.Flattened.{place_in};
    ghost use Rattle.lb_flat.specs.InternalFlatten.{Writes, WritesTerm, WritesTerms, WritesCommand, WritesTest};
    ghost use Rattle.lb_flat.specs.InternalFlatten.{code_of_term, holder_of_term, holders_of_terms, code_of, HasTermRoom, HasTermsRoom, HasRoom};

    /// A scope of these functions and names.
    pub fn new(alloc: Global, functions: &'a [Function], names: VariableNumbers<'a>) -> Scope<'a>
        requires names { length names < 2 ^ 32 }
        requires functions { length functions.now ≤ MOST_FUNCTIONS }
        ensures functions { result.functions
            ≡ function_names (map procedure_of functions.entry.now) }
        ensures names { result.names ≡ names.entry }
    {
        Scope {
            alloc,
            functions,
            names,
        }
    }

    /// The number of the first variable without a name.
    pub fn first_temporary(&self) -> u32
        ensures { result ≡ length self.now.names }
    {
        self.names.len() as u32
    }

    // The number of a variable.
    fn number(&self, name: &Name) -> u32
        ensures value { result ≡ place_in self.now.names name.now }
        ensures is_name { IsName name.now }
    {
        self.names.number(name)
    }

    /// The numbers of several variables. Fails only for want of memory.
    pub fn numbers(&self, names: &[Name]) -> Result<Items<u32>, AllocError>
        ensures value { IfOk result (λ numbers. numbers ≡ map (place_in self.now.names) names.now) }
        ensures are_names { OnOk result (All IsName names.now) }
    {
        let mut numbers = Items::new(self.alloc);
        for name in names {
            numbers.push(self.number(name))?;
        }
        Ok(numbers)
    }

    // Adds the code of an expression, and gives the variable that has its value then: the target, if there is one, else
    // its own variable or t. Those from t on are free.
    fn add_term(
        &self,
        code: &mut Items<FlatCmd>,
        e: &Expr,
        target: Option<u32>,
        t: u32,
    ) -> Result<u32, AllocError>
        requires { HasTermRoom t (term_of e.now) }
        ensures holder { IfOk result (λ n. n ≡ holder_of_term self.now (term_of e.now) target t) }
        ensures code { OnOk result
            (WritesTerm self.now (term_of e.now) target t code.old code.new) }
        ensures well_formed { OnOk result (IsTerm (term_of e.now)) }
    {
        match e {
            Expr::Literal(value) => {
                let (target, value) = (target.unwrap_or(t), word(*value));
                add(code, FlatCmd::Literal { target, value })?;
                Ok(target)
            }
            Expr::Var(name) => self.add_variable(code, name, target),
            Expr::Load { width, address } => {
                let address = self.add_term(code, address.get(), None, t)?;
                let (width, target) = (*width, target.unwrap_or(t));
                add(
                    code,
                    FlatCmd::Load {
                        width,
                        target,
                        address,
                    },
                )?;
                Ok(target)
            }
            Expr::Binary { op, left, right } => {
                let left = self.add_term(code, left.get(), None, t)?;
                let right = self.add_term(code, right.get(), None, t + 1)?;
                let (op, target) = (*op, target.unwrap_or(t));
                add(
                    code,
                    FlatCmd::Binary {
                        op,
                        target,
                        left,
                        right,
                    },
                )?;
                Ok(target)
            }
        }
    }

    // Adds a copy of a variable to the target, if there is one, and gives the variable that has the value then.
    fn add_variable(
        &self,
        code: &mut Items<FlatCmd>,
        name: &Name,
        target: Option<u32>,
    ) -> Result<u32, AllocError>
        ensures holder { IfOk result (λ n.
            n ≡ holder_of_term self.now (Variable name.now) target 0) }
        ensures code { OnOk result ((t : ℕ) →
            WritesTerm self.now (Variable name.now) target t code.old code.new) }
        ensures well_formed { OnOk result (IsTerm (Variable name.now)) }
    {
        let source = self.number(name);
        match target {
            None => Ok(source),
            Some(target) => {
                add(code, FlatCmd::Assign { target, source })?;
                Ok(target)
            }
        }
    }

    // Adds the code of several expressions, where the variables from t on are free, and gives those that have the values
    // then.
    fn add_terms(
        &self,
        code: &mut Items<FlatCmd>,
        es: &[Expr],
        t: u32,
    ) -> Result<Items<u32>, AllocError>
        requires { HasTermsRoom t (map term_of es.now) }
        ensures holders { IfOk result (λ numbers.
            numbers ≡ holders_of_terms self.now (map term_of es.now) t) }
        ensures code { OnOk result
            (WritesTerms self.now (map term_of es.now) t code.old code.new) }
        ensures well_formed { OnOk result (All IsTerm (map term_of es.now)) }
    {
        let mut numbers = Items::new(self.alloc);
        let mut free = t;
        for e in es {
            numbers.push(self.add_term(code, e, None, free)?)?;
            free += 1;
        }
        Ok(numbers)
    }

    // Adds the code of an assignment.
    fn add_set(
        &self,
        code: &mut Items<FlatCmd>,
        target: &Name,
        value: &Expr,
    ) -> Result<(), AllocError>
        requires { HasRoom (length self.now.names) (Sets target.now (term_of value.now)) }
        ensures code { let c = Sets target.now (term_of value.now) in
            OnOk result (WritesCommand self.now c code.old code.new) }
        ensures well_formed { OnOk result (IsCommand (Sets target.now (term_of value.now))) }
    {
        let target = self.number(target);
        self.add_term(code, value, Some(target), self.first_temporary())?;
        Ok(())
    }

    // Adds the code of a store.
    fn add_store(
        &self,
        code: &mut Items<FlatCmd>,
        width: Width,
        address: &Expr,
        value: &Expr,
    ) -> Result<(), AllocError>
        requires { let c = Stores width (term_of address.now) (term_of value.now) in
            HasRoom (length self.now.names) c }
        ensures code { let c = Stores width (term_of address.now) (term_of value.now) in
            OnOk result (WritesCommand self.now c code.old code.new) }
        ensures well_formed { let c = Stores width (term_of address.now) (term_of value.now) in
            OnOk result (IsCommand c) }
    {
        let t = self.first_temporary();
        let address = self.add_term(code, address, None, t)?;
        let value = self.add_term(code, value, None, t + 1)?;
        add(
            code,
            FlatCmd::Store {
                width,
                address,
                value,
            },
        )
    }

    // Adds the code of a call.
    fn add_call(
        &self,
        code: &mut Items<FlatCmd>,
        targets: &[Name],
        function: &Name,
        arguments: &[Expr],
    ) -> Result<(), AllocError>
        requires { let c = Calls targets.now function.now (map term_of arguments.now) in
            HasRoom (length self.now.names) c }
        ensures code { let c = Calls targets.now function.now (map term_of arguments.now) in
            OnOk result (WritesCommand self.now c code.old code.new) }
        ensures well_formed { let c = Calls targets.now function.now (map term_of arguments.now) in
            OnOk result (IsCommand c) }
    {
        let arguments = self.add_terms(code, arguments, self.first_temporary())?;
        let targets = self.numbers(targets)?;
        let function = place_of_function(self.functions, function.as_bytes());
        add(
            code,
            FlatCmd::Call {
                targets,
                function,
                arguments,
            },
        )
    }

    // Adds the code of an access.
    fn add_access(
        &self,
        code: &mut Items<FlatCmd>,
        targets: &[Name],
        action: Action,
        arguments: &[Expr],
    ) -> Result<(), AllocError>
        requires { let c = Interacts targets.now action (map term_of arguments.now) in
            HasRoom (length self.now.names) c }
        ensures code { let c = Interacts targets.now action (map term_of arguments.now) in
            OnOk result (WritesCommand self.now c code.old code.new) }
        ensures well_formed { let c = Interacts targets.now action (map term_of arguments.now) in
            OnOk result (IsCommand c) }
    {
        let arguments = self.add_terms(code, arguments, self.first_temporary())?;
        let targets = self.numbers(targets)?;
        add(
            code,
            FlatCmd::Interact {
                targets,
                action,
                arguments,
            },
        )
    }

    // Adds the code of a block of memory round this body.
    fn add_stack_block(
        &self,
        code: &mut Items<FlatCmd>,
        bytes: u32,
        target: &Name,
        body: FlatBlock,
    ) -> Result<(), AllocError>
        ensures code { let made = Reserve bytes (place_in self.now.names target.now) (flat_block body) in
            OnOk result (Writes code.old code.new (Sequence made)) }
        ensures well_formed { OnOk result (IsWord bytes × IsName target.now) }
    {
        let (bytes, target) = (word(bytes), self.number(target));
        add(
            code,
            FlatCmd::StackAlloc {
                bytes,
                target,
                body,
            },
        )
    }

    // Adds the code of a choice between these blocks.
    fn add_branch(
        &self,
        code: &mut Items<FlatCmd>,
        condition: &Expr,
        yes: FlatBlock,
        no: FlatBlock,
    ) -> Result<(), AllocError>
        requires { HasTermRoom (length self.now.names) (term_of condition.now) }
        ensures code { OnOk result (WritesTest self.now (term_of condition.now)
            (λ test. Branch test (flat_block yes) (flat_block no)) code.old code.new) }
        ensures well_formed { OnOk result (IsTerm (term_of condition.now)) }
    {
        let condition = self.add_term(code, condition, None, self.first_temporary())?;
        add(code, FlatCmd::If { condition, yes, no })
    }

    // Adds the code of a loop round this body.
    fn add_loop(
        &self,
        code: &mut Items<FlatCmd>,
        condition: &Expr,
        body: FlatBlock,
    ) -> Result<(), AllocError>
        requires { HasTermRoom (length self.now.names) (term_of condition.now) }
        ensures code { let t = length self.now.names in
            let test = holder_of_term self.now (term_of condition.now) None t in
            let head = code_of_term self.now (term_of condition.now) None t Nothing in
            OnOk result (Writes code.old code.new (Sequence (Loop head test (flat_block body)))) }
        ensures well_formed { OnOk result (IsTerm (term_of condition.now)) }
    {
        let mut before = Items::new(self.alloc);
        let condition = self.add_term(&mut before, condition, None, self.first_temporary())?;
        add(
            code,
            FlatCmd::While {
                before: closed(before),
                condition,
                body,
            },
        )
    }

    // Adds the code of a command.
    #[cycle(commands)]
    fn add_command(&self, c: &Cmd, code: &mut Items<FlatCmd>) -> Result<(), AllocError>
        requires { HasRoom (length self.now.names) (command_of c.now) }
        ensures code { OnOk result (WritesCommand self.now (command_of c.now) code.old code.new) }
        ensures well_formed { OnOk result (IsCommand (command_of c.now)) }
    {
        match c {
            Cmd::Skip => Ok(()),
            Cmd::Set { target, value } => self.add_set(code, target, value),
            Cmd::Unset { target } => {
                let target = self.number(target);
                add(code, FlatCmd::Unset { target })
            }
            Cmd::Store {
                width,
                address,
                value,
            } => self.add_store(code, *width, address, value),
            Cmd::StackAlloc {
                bytes,
                target,
                body,
            } => {
                let body = self.block(body)?;
                self.add_stack_block(code, *bytes, target, body)
            }
            Cmd::If { condition, yes, no } => {
                let (yes, no) = (self.block(yes)?, self.block(no)?);
                self.add_branch(code, condition, yes, no)
            }
            Cmd::While { condition, body } => {
                let body = self.block(body)?;
                self.add_loop(code, condition, body)
            }
            Cmd::Call {
                targets,
                function,
                arguments,
            } => self.add_call(code, targets.as_slice(), function, arguments.as_slice()),
            Cmd::Interact {
                targets,
                action,
                arguments,
            } => self.add_access(code, targets.as_slice(), *action, arguments.as_slice()),
        }
    }

    /// The code of a block. Fails only for want of memory.
    #[cycle(commands)]
    pub fn block(&self, block: &Block) -> Result<FlatBlock, AllocError>
        requires { HasRoom (length self.now.names) (block_of block.now) }
        ensures code { IfOk result (λ made.
            flat_block made ≡ code_of self.now (block_of block.now) Nothing) }
        ensures well_formed { OnOk result (IsBlock (block_of block.now)) }
    {
        let mut code = Items::new(self.alloc);
        for c in block.commands.as_slice() {
            self.add_command(c, &mut code)?;
        }
        Ok(closed(code))
    }
}

/// The place of the first of these functions that has the name; their number where none has.
pub fn place_of_function(functions: &[Function], name: &[u8]) -> u32
    requires { length functions.now ≤ MOST_FUNCTIONS }
    ensures { result ≡ place_in (function_names (map procedure_of functions.now)) name.now }
{
    let mut place = 0;
    for f in functions {
        if f.name.as_bytes() == name {
            return place;
        }
        place += 1;
    }
    place
}

// The number.
fn word(number: u32) -> u32
    ensures value { result ≡ number }
    ensures word { IsWord number }
{
    number
}

// Adds a command.
#[tactic(auto, using(crate::proofs::EmittedLemmas::emitted_more))]
fn add(code: &mut Items<FlatCmd>, c: FlatCmd) -> Result<(), AllocError>
    ensures { OnOk result (Writes code.old code.new (Sequence (flat_command c))) }
{
    code.push(c)?;
    Ok(())
}

// The commands as a block.
fn closed(code: Items<FlatCmd>) -> FlatBlock
    ensures { flat_block result ≡ emitted code Nothing }
{
    FlatBlock { commands: code }
}
