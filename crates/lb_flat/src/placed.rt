// Commands of one operation each, over registers and slots.
use crate::places::Place;
use lb_syntax::{Action, Op, Width};
use sqlite_items::Items;

/// A command of a placed function. Each `u8` is a register, each `slot` a slot of the running function.
#[cycle(placed)]
#[derive(Drop)]
pub enum PlacedCmd {
    /// Sets a register to a number.
    Literal {
        target: u8,
        value: u32,
    },
    /// Sets a register to the value of another one.
    Assign {
        target: u8,
        source: u8,
    },
    /// Sets a register to what an operation on two registers gives.
    Binary {
        op: Op,
        target: u8,
        left: u8,
        right: u8,
    },
    /// Sets a register to the bytes from an address on, the least significant first, taken without a sign.
    Load {
        width: Width,
        target: u8,
        address: u8,
    },
    /// Writes the low bytes of a value from an address on.
    Store {
        width: Width,
        address: u8,
        value: u8,
    },
    /// Runs the body with a block of this many bytes, whose address the target holds.
    StackAlloc {
        bytes: u32,
        target: u8,
        body: PlacedBlock,
    },
    /// Runs `yes` where the condition isn't zero, else `no`.
    If {
        condition: u8,
        yes: PlacedBlock,
        no: PlacedBlock,
    },
    /// Runs `before`, which computes the condition, and where that isn't zero, the body and all of this again.
    While {
        before: PlacedBlock,
        condition: u8,
        body: PlacedBlock,
    },
    /// Calls a function of the program, which has registers and slots of its own.
    Call {
        targets: Items<Place>,
        function: u32,
        arguments: Items<Place>,
    },
    /// Accesses a device.
    Interact {
        targets: Items<Place>,
        action: Action,
        arguments: Items<Place>,
    },
    /// Sets a register to the value of a slot.
    GetSlot {
        register: u8,
        slot: u32,
    },
    /// Sets a slot to the value of a register.
    PutSlot {
        slot: u32,
        register: u8,
    },
}

/// Commands that run one after another.
#[cycle(placed)]
#[derive(Drop)]
pub struct PlacedBlock {
    pub commands: Items<PlacedCmd>,
}

/// A function: its parameters are set when it starts, its results are read when it ends.
#[derive(Drop)]
pub struct PlacedFunction {
    /// How many slots its frame has: they are the numbers below.
    pub slots: u32,
    pub params: Items<Place>,
    pub results: Items<Place>,
    pub body: PlacedBlock,
}

/// A program, its functions numbered from 0 in text order.
#[derive(Drop)]
pub struct PlacedProgram {
    pub functions: Items<PlacedFunction>,
    /// The number of `init`, which runs once.
    pub init: u32,
    /// The number of `loop`, which then runs again and again.
    pub again: u32,
}
