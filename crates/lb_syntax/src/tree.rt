// The tree of a program.
use crate::name::Name;
use sqlite_items::{Boxed, Items};

/// A binary operation on words of 32 bits.
#[derive(Clone, Copy, Debug, PartialEq, Eq)]
pub enum Op {
    /// The sum, modulo 2^32.
    Add,
    /// The difference, modulo 2^32.
    Sub,
    /// The lower half of the product.
    Mul,
    /// The upper half of the unsigned product.
    Mulhuu,
    /// The unsigned quotient.
    Divu,
    /// The unsigned remainder.
    Remu,
    /// Bitwise and.
    And,
    /// Bitwise or.
    Or,
    /// Bitwise exclusive or.
    Xor,
    /// Shift right, zeros coming in.
    Sru,
    /// Shift left.
    Slu,
    /// Shift right, copies of the sign coming in.
    Srs,
    /// 1 where the left is less, both with a sign, else 0.
    Lts,
    /// 1 where the left is less, both without a sign, else 0.
    Ltu,
    /// 1 where both are equal, else 0.
    Eq,
}

/// How many bytes a load or a store moves: 1, 2 or 4.
#[derive(Clone, Copy, Debug, PartialEq, Eq)]
pub enum Width {
    /// One byte.
    One,
    /// Two bytes.
    Two,
    /// Four bytes.
    Four,
}

/// Which way an access to a device goes.
#[derive(Clone, Copy, Debug, PartialEq, Eq)]
pub enum Action {
    /// `MMIOREAD`: one address, one target.
    Read,
    /// `MMIOWRITE`: an address and a value, no target.
    Write,
}

/// An expression, whose value is a word.
#[derive(Drop)]
pub enum Expr {
    /// The number itself.
    Literal(u32),
    /// The value of a variable.
    Var(Name),
    /// The bytes from an address on, the least significant first, taken without a sign.
    Load {
        width: Width,
        address: Boxed<Expr>,
    },
    /// An operation; the left operand is evaluated first.
    Binary {
        op: Op,
        left: Boxed<Expr>,
        right: Boxed<Expr>,
    },
}

/// A command.
#[cycle(cmd)]
#[derive(Drop)]
pub enum Cmd {
    /// Nothing.
    Skip,
    /// Sets a variable.
    Set {
        target: Name,
        value: Expr,
    },
    /// Removes a variable, which may be unset already.
    Unset {
        target: Name,
    },
    /// Writes the low bytes of a value from an address on.
    Store {
        width: Width,
        address: Expr,
        value: Expr,
    },
    /// Runs the body with a block of this many bytes, whose address the target holds.
    StackAlloc {
        bytes: u32,
        target: Name,
        body: Block,
    },
    /// Runs `yes` where the condition isn't zero, else `no`.
    If {
        condition: Expr,
        yes: Block,
        no: Block,
    },
    /// Runs the body as long as the condition isn't zero.
    While {
        condition: Expr,
        body: Block,
    },
    /// Calls a function of the program.
    Call {
        targets: Items<Name>,
        function: Name,
        arguments: Items<Expr>,
    },
    /// Accesses a device.
    Interact {
        targets: Items<Name>,
        action: Action,
        arguments: Items<Expr>,
    },
}

/// Commands that run one after another.
#[cycle(cmd)]
#[derive(Drop)]
pub struct Block {
    /// In the order in which they run.
    pub commands: Items<Cmd>,
}

/// A function: its parameters are set when it starts, its results are read when it ends.
#[derive(Drop)]
pub struct Function {
    /// What a call names it by.
    pub name: Name,
    /// The variables that hold a call's arguments, in their order.
    pub params: Items<Name>,
    /// The variables whose values a call's targets get, in their order.
    pub results: Items<Name>,
    /// What it runs.
    pub body: Block,
}

/// A program, its functions in text order.
#[derive(Drop)]
pub struct Program {
    /// In text order, of any number.
    pub functions: Items<Function>,
}
