// Programs written down as constant data, and the trees that they say.
use lb_syntax::{Action, Block, Cmd, Expr, Function, Name, NameFault, Op, Program, Width};
use sqlite_items::{Boxed, Items};
use std::alloc::{AllocError, Global};

/// Why there is no tree.
#[derive(Clone, Copy, Debug, PartialEq, Eq)]
pub enum NoTree {
    /// What is written down for a name is none.
    Name,
    /// What is printed isn't text.
    NotText,
    /// No memory is left.
    Memory,
}

impl From<AllocError> for NoTree {
    fn from(_: AllocError) -> Self {
        NoTree::Memory
    }
}

impl From<NameFault> for NoTree {
    fn from(_: NameFault) -> Self {
        NoTree::Name
    }
}

/// An expression, written down.
#[derive(Clone, Copy)]
pub enum Term<'a> {
    Num(u32),
    Var(&'a [u8]),
    Load(Width, &'a Term<'a>),
    Bin(Op, &'a Term<'a>, &'a Term<'a>),
}

/// A command, written down.
#[cycle(lines)]
#[derive(Clone, Copy)]
pub enum Line<'a> {
    Skip,
    Set(&'a [u8], Term<'a>),
    Unset(&'a [u8]),
    Store(Width, Term<'a>, Term<'a>),
    Alloc(u32, &'a [u8], &'a [Line<'a>]),
    If(Term<'a>, &'a [Line<'a>], &'a [Line<'a>]),
    While(Term<'a>, &'a [Line<'a>]),
    Call(&'a [&'a [u8]], &'a [u8], &'a [Term<'a>]),
    Device(&'a [&'a [u8]], Action, &'a [Term<'a>]),
}

/// A function, written down.
#[derive(Clone, Copy)]
pub struct Sketch<'a> {
    pub name: &'a [u8],
    pub params: &'a [&'a [u8]],
    pub results: &'a [&'a [u8]],
    pub body: &'a [Line<'a>],
}

fn expr(alloc: Global, e: &Term) -> Result<Expr, NoTree> {
    Ok(match e {
        Term::Num(n) => Expr::Literal(*n),
        Term::Var(x) => Expr::Var(Name::new(alloc, *x)?),
        Term::Load(width, address) => Expr::Load {
            width: *width,
            address: Boxed::new(alloc, expr(alloc, *address)?)?,
        },
        Term::Bin(op, left, right) => Expr::Binary {
            op: *op,
            left: Boxed::new(alloc, expr(alloc, *left)?)?,
            right: Boxed::new(alloc, expr(alloc, *right)?)?,
        },
    })
}

fn exprs(alloc: Global, es: &[Term]) -> Result<Items<Expr>, NoTree> {
    let mut trees = Items::new(alloc);
    for e in es {
        trees.push(expr(alloc, e)?)?;
    }
    Ok(trees)
}

fn names(alloc: Global, xs: &[&[u8]]) -> Result<Items<Name>, NoTree> {
    let mut all = Items::new(alloc);
    for x in xs {
        all.push(Name::new(alloc, *x)?)?;
    }
    Ok(all)
}

#[cycle(build)]
fn command(alloc: Global, line: &Line) -> Result<Cmd, NoTree> {
    match line {
        Line::Skip => Ok(Cmd::Skip),
        Line::Set(x, e) => Ok(Cmd::Set {
            target: Name::new(alloc, *x)?,
            value: expr(alloc, e)?,
        }),
        Line::Unset(x) => Ok(Cmd::Unset {
            target: Name::new(alloc, *x)?,
        }),
        Line::Store(width, address, value) => Ok(Cmd::Store {
            width: *width,
            address: expr(alloc, address)?,
            value: expr(alloc, value)?,
        }),
        Line::Alloc(bytes, x, body) => Ok(Cmd::StackAlloc {
            bytes: *bytes,
            target: Name::new(alloc, *x)?,
            body: block(alloc, *body)?,
        }),
        Line::If(condition, yes, no) => Ok(Cmd::If {
            condition: expr(alloc, condition)?,
            yes: block(alloc, *yes)?,
            no: block(alloc, *no)?,
        }),
        Line::While(condition, body) => Ok(Cmd::While {
            condition: expr(alloc, condition)?,
            body: block(alloc, *body)?,
        }),
        Line::Call(targets, function, arguments) => Ok(Cmd::Call {
            targets: names(alloc, *targets)?,
            function: Name::new(alloc, *function)?,
            arguments: exprs(alloc, *arguments)?,
        }),
        Line::Device(targets, action, arguments) => Ok(Cmd::Interact {
            targets: names(alloc, *targets)?,
            action: *action,
            arguments: exprs(alloc, *arguments)?,
        }),
    }
}

#[cycle(build)]
fn block(alloc: Global, lines: &[Line]) -> Result<Block, NoTree> {
    let mut commands = Items::new(alloc);
    for line in lines {
        commands.push(command(alloc, line)?)?;
    }
    Ok(Block { commands })
}

fn function(alloc: Global, sketch: &Sketch) -> Result<Function, NoTree> {
    Ok(Function {
        name: Name::new(alloc, sketch.name)?,
        params: names(alloc, sketch.params)?,
        results: names(alloc, sketch.results)?,
        body: block(alloc, sketch.body)?,
    })
}

/// The tree of a program.
pub fn program(alloc: Global, sketches: &[Sketch]) -> Result<Program, NoTree> {
    let mut functions = Items::new(alloc);
    for sketch in sketches {
        functions.push(function(alloc, sketch)?)?;
    }
    Ok(Program { functions })
}
