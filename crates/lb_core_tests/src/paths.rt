// Schedules with branches and jumps: wrong paths, and what is predicted. Five lines for each: what it shows, its words, the kinds that are fired by
// their letters, a small one where the kind is not enabled, the replies, and what is told of it.

/// The schedules.
pub static PROGRAMS: &str = "\
two items of the wrong path in the one queue and then in the other: beq x0, x0, 24, with five instructions behind it that set x5 to x9; addi x1, x0, 3; addi x2, x1, 4
00000c63 00100293 00100313 00100393 00100413 00100493 00300093 00408113
F F D D F F f d X D F f d X X D X D F d X d W W D X W x

done 3 retired 3 fetch 00000020,x1 00000003,x2 00000007
a read of a device on the wrong path is decoded and dropped: lui x1, 0x10024; beq x0, x0, 8; lw x2, 72(x1); addi x3, x0, 1
100240b7 00000463 0480a103 00100193
F D X W F D F D F X m X m F W D X D X W m

done 3 retired 3 fetch 00000010,x1 10024000,x3 00000001
a read of a device on the path that the table predicts: lui x1, 0x10024; lw x2, 72(x1); bne x2, x0, -4; addi x3, x0, 1
100240b7 0480a103 fe011ee3 00100193
F D X W F D X M W F D X W F D X M W F D F D F X m W m X m D m X m F D X m W
00000001 00000000
ld 10024048 00000001,ld 10024048 00000000,done 6 retired 6 fetch 00000010,x1 10024000,x3 00000001
a halt on the wrong path: beq x0, x0, 8; ecall; addi x1, x0, 1
00000463 00000073 00100093
F F D D X X F W D X W

done 2 retired 2 fetch 0000000c,x1 00000001
an instruction behind a halt: addi x1, x0, 1; ecall; addi x2, x0, 2
00100093 00000073 00200113
F F D D F X X D W X W f d x r m w

done 1 retired 1 fetch 0000000c,halted Ecall,x1 00000001
two jumps with one place in the table: jal x0, 64 at 4; jal x0, -64 at 68
00000013 0400006f 00000013 00000013 00000013 00000013 00000013 00000013 00000013 00000013 00000013 00000013 00000013 00000013 00000013 00000013 00000013 fc1ff06f
F D X W F D X W F D X W F

done 3 retired 3 fetch 00000008
so each is mispredicted each time
00000013 0400006f 00000013 00000013 00000013 00000013 00000013 00000013 00000013 00000013 00000013 00000013 00000013 00000013 00000013 00000013 00000013 fc1ff06f
F D X W F D X W F D X W F D X W F

done 4 retired 4 fetch 00000048
two jumps with places of their own: jal x0, 68 at 4; jal x0, -68 at 72
00000013 0440006f 00000013 00000013 00000013 00000013 00000013 00000013 00000013 00000013 00000013 00000013 00000013 00000013 00000013 00000013 00000013 00000013 fbdff06f
F D X W F D X W F D X W F

done 3 retired 3 fetch 00000048
and are then predicted
00000013 0440006f 00000013 00000013 00000013 00000013 00000013 00000013 00000013 00000013 00000013 00000013 00000013 00000013 00000013 00000013 00000013 00000013 fbdff06f
F D X W F D X W F D X W F F D D X X W W

done 5 retired 5 fetch 00000004
";
