// Programs that halt: each cause, and what comes just before it. Four lines for each: what it shows, its words, the replies, and what is told of
// it.

/// The programs.
pub static PROGRAMS: &str = "\
a division that overflows, then the end of the code: lui x1, 0x80000; addi x2, x0, -1; div x3, x1, x2
800000b7 fff00113 0220c1b3

halted BadPc at 0000000c,x1 80000000,x2 ffffffff,x3 80000000
a word of no instruction: addi x1, x0, 1; word 0x00000000
00100093 00000000

halted UnknownWord at 00000004,x1 00000001
ECALL: addi x1, x0, 1; ecall
00100093 00000073

halted Ecall at 00000004,x1 00000001
EBREAK: addi x1, x0, 1; ebreak
00100093 00100073

halted Ebreak at 00000004,x1 00000001
a jump behind the code commits: jal x1, 4096; addi x2, x0, 1
000010ef 00100113

halted BadPc at 00001000,x1 00000004
a jump to an odd word commits: addi x1, x0, 3; jalr x1, 4(x1); addi x2, x0, 1
00300093 004080e7 00100113

halted BadPc at 00000006,x1 00000008
a jump whose register is its own base: addi x1, x0, 8; jalr x1, 5(x1); addi x2, x0, 1; addi x3, x0, 1
00800093 005080e7 00100113 00100193

halted BadPc at 00000010,x1 00000008,x3 00000001
a branch to no multiple of 4 commits: beq x0, x0, 6; addi x2, x0, 1
00000363 00100113

halted BadPc at 00000006
signed and unsigned branches
fff00093 00100113 00114c63 0020da63 0020e863 00117663 0020c463 00000073 00116463 00000073 00209463 00000073 00115463 00000073 0020f463 00000073 00208463 00109263 00100193

halted BadPc at 0000004c,x1 ffffffff,x2 00000001,x3 00000001
FENCE and x0: no register changes: fence 255, x1, x31; addi x0, x0, 5; lui x0, 1; add x1, x0, x0; auipc x2, 1
0ff08f8f 00500013 00001037 000000b3 00001117

halted BadPc at 00000014,x2 00001010
a store on the last byte of the code: addi x1, x0, 7; sb x1, 11(x0); addi x2, x0, 1
00700093 001005a3 00100113

halted StoreToCode at 00000004,x1 00000007
a store whose first byte alone falls on the code: addi x1, x0, 7; sw x1, 11(x0); addi x2, x0, 1
00700093 001025a3 00100113

halted StoreToCode at 00000004,x1 00000007
a store half outside RAM on the code: addi x1, x0, 7; sw x1, -2(x0)
00700093 fe102f23

halted BadAccess at 00000004,x1 00000007
a load half outside RAM: addi x1, x0, 7; lw x1, -2(x0)
00700093 ffe02083

halted BadAccess at 00000004,x1 00000007
a word across the end of RAM: lui x1, 0x40; lw x2, -3(x1)
000400b7 ffd0a103

halted BadAccess at 00000004,x1 00040000
a half across the end of RAM: lui x1, 0x40; lh x2, -1(x1)
000400b7 fff09103

halted BadAccess at 00000004,x1 00040000
a byte behind RAM: lui x1, 0x40; lbu x2, 0(x1)
000400b7 0000c103

halted BadAccess at 00000004,x1 00040000
a stored word across the end of RAM: lui x1, 0x40; sw x1, -3(x1)
000400b7 fe10aea3

halted BadAccess at 00000004,x1 00040000
a stored half across the end of RAM: lui x1, 0x40; sh x1, -1(x1)
000400b7 fe109fa3

halted BadAccess at 00000004,x1 00040000
a stored byte behind RAM: lui x1, 0x40; sb x1, 0(x1)
000400b7 00108023

halted BadAccess at 00000004,x1 00040000
a byte of a device: lui x1, 0x10012; lb x2, 0(x1)
100120b7 00008103
00000001
halted BadAccess at 00000004,x1 10012000
a stored half of a device: lui x1, 0x10012; sh x2, 0(x1)
100120b7 00209023

halted BadAccess at 00000004,x1 10012000
a word of a device at no multiple of 4: lui x1, 0x10012; lw x2, 2(x1)
100120b7 0020a103
00000001
halted BadAccess at 00000004,x1 10012000
a word behind the pins: lui x1, 0x10013; lw x2, 0(x1)
100130b7 0000a103
00000001
halted BadAccess at 00000004,x1 10013000
a word before the pins: lui x1, 0x10012; sw x2, -4(x1)
100120b7 fe20ae23

halted BadAccess at 00000004,x1 10012000
a word before the bus: lui x1, 0x10024; sw x2, -4(x1)
100240b7 fe20ae23

halted BadAccess at 00000004,x1 10024000
a word behind the bus: lui x1, 0x10025; lw x2, 0(x1)
100250b7 0000a103
00000001
halted BadAccess at 00000004,x1 10025000
";
