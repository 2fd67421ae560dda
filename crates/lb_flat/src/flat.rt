// Commands of one operation each, over numbered variables.
use lb_syntax::{Action, Op, Width};
use sqlite_items::Items;

/// A command of a flat function. Variables and functions are named by their numbers.
#[cycle(flat)]
#[derive(Drop)]
pub enum FlatCmd {
    /// Sets a variable to a number.
    Literal {
        target: u32,
        value: u32,
    },
    /// Sets a variable to the value of another one.
    Assign {
        target: u32,
        source: u32,
    },
    /// Sets a variable to what an operation on two variables gives.
    Binary {
        op: Op,
        target: u32,
        left: u32,
        right: u32,
    },
    /// Sets a variable to the bytes from an address on, the least significant first, taken without a sign.
    Load {
        width: Width,
        target: u32,
        address: u32,
    },
    /// Writes the low bytes of a value from an address on.
    Store {
        width: Width,
        address: u32,
        value: u32,
    },
    /// Removes a variable, which may be unset already.
    Unset {
        target: u32,
    },
    /// Runs the body with a block of this many bytes, whose address the target holds.
    StackAlloc {
        bytes: u32,
        target: u32,
        body: FlatBlock,
    },
    /// Runs `yes` where the condition isn't zero, else `no`.
    If {
        condition: u32,
        yes: FlatBlock,
        no: FlatBlock,
    },
    /// Runs `before`, which computes the condition, and where that isn't zero, the body and all of this again.
    While {
        before: FlatBlock,
        condition: u32,
        body: FlatBlock,
    },
    /// Calls a function of the program.
    Call {
        targets: Items<u32>,
        function: u32,
        arguments: Items<u32>,
    },
    /// Accesses a device.
    Interact {
        targets: Items<u32>,
        action: Action,
        arguments: Items<u32>,
    },
}

/// Commands that run one after another.
#[cycle(flat)]
#[derive(Drop)]
pub struct FlatBlock {
    pub commands: Items<FlatCmd>,
}

/// A function: its parameters are set when it starts, its results are read when it ends.
#[derive(Drop)]
pub struct FlatFunction {
    /// How many variables it has: they are the numbers below.
    pub variables: u32,
    pub params: Items<u32>,
    pub results: Items<u32>,
    pub body: FlatBlock,
}

/// A program, its functions numbered from 0 in text order.
#[derive(Drop)]
pub struct FlatProgram {
    pub functions: Items<FlatFunction>,
    /// The number of `init`, which runs once.
    pub init: u32,
    /// The number of `loop`, which then runs again and again.
    pub again: u32,
}
