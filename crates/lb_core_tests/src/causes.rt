// Each cause that halts, reached through the pipeline; nothing is enabled afterwards. Five lines for each: what it shows, its words, the kinds
// that are fired by their letters, a small one where the kind is not enabled, the replies, and what is told of it.

/// The schedules.
pub static PROGRAMS: &str = "\
behind the code: jal x1, 64
040000ef
F D X W F D X W f d x r m w b s a

done 1 retired 1 fetch 00000044,halted BadPc,x1 00000004
an odd word: jalr x1, 6(x0)
006000e7
F D X W F D X W f d x r m w b s a

done 1 retired 1 fetch 0000000a,halted BadPc,x1 00000004
a word of no instruction: addi x1, x0, 1; word 0
00100093 00000000
F F D D X X W W f d x r m w b s a

done 1 retired 1 fetch 00000008,halted UnknownWord,x1 00000001
ecall, with all queues full behind it
00100093 00000073 00100113 00100193 00100213
F F D D F X X F D D F F W W f d x r m w b s a

done 1 retired 1 fetch 00000018,halted Ecall,x1 00000001
ebreak
00100093 00100073
F F D D X X W W f d x r m w b s a

done 1 retired 1 fetch 00000008,halted Ebreak,x1 00000001
a store to the code: sw x0, 0(x0)
00002023
F D X r m W f d x r m w b s a

done 0 retired 0 fetch 00000004,halted StoreToCode
a load behind RAM: lui x1, 0x40; lw x2, -2(x1)
000400b7 ffe0a103
F F D X W D X r m W f d x r m w b s a

done 1 retired 1 fetch 00000008,halted BadAccess,x1 00040000
a store of a byte at a device: lui x1, 0x10024; sb x1, 72(x1)
100240b7 04108423
F F D X W D X r m W f d x r m w b s a

done 1 retired 1 fetch 00000008,halted BadAccess,x1 10024000
";
