// Programs that halt, each by another cause.
use lb_rv::Cause;

/// A program and how it halts: its words, what it fires, and how many entries these are.
#[derive(Clone, Copy)]
pub struct HaltingProgram {
    pub words: &'static str,
    pub letters: &'static str,
    pub entries: u32,
    pub cause: Cause,
}

/// `jal x1, 64`; `addi x1, x0, 1` and a word of no instruction; `ecall`; `ebreak`; `sw x0, 0(x0)`;
/// `lui x1, 0x40` and `lw x2, -2(x1)`.
pub const HALTING: [HaltingProgram; 6] = [
    HaltingProgram {
        words: "040000ef",
        letters: "..",
        entries: 8,
        cause: Cause::BadPc,
    },
    HaltingProgram {
        words: "00100093 00000000",
        letters: "..",
        entries: 8,
        cause: Cause::UnknownWord,
    },
    HaltingProgram {
        words: "00000073",
        letters: ".",
        entries: 4,
        cause: Cause::Ecall,
    },
    HaltingProgram {
        words: "00100073",
        letters: "B.",
        entries: 5,
        cause: Cause::Ebreak,
    },
    HaltingProgram {
        words: "00002023",
        letters: ".",
        entries: 4,
        cause: Cause::StoreToCode,
    },
    HaltingProgram {
        words: "000400b7 ffe0a103",
        letters: "..",
        entries: 8,
        cause: Cause::BadAccess,
    },
];
