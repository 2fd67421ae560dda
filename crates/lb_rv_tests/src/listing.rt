// The words, and their listing from address 0 on; behind each line of an instruction the instruction itself.

/// The words; the last 16 are of no instruction: they have a wrong opcode, funct3 or funct7, in each format that has one.
pub static WORDS: [u32; 112] = [
    0x000000B7, 0x00001FB7, 0x10024137, 0xFFFFF037, 0x00000097, 0x00001F97, 0x10024117, 0xFFFFF017,
    0x0000006F, 0x800000EF, 0x7FFFFFEF, 0x001002EF, 0xFFFFF36F, 0x00000067, 0x800F80E7, 0x7FF08FE7,
    0x00000463, 0x002080E3, 0x81F08063, 0x7E2F8FE3, 0x81F09063, 0x7E2F9FE3, 0x81F0C063, 0x7E2FCFE3,
    0x81F0D063, 0x7E2FDFE3, 0x81F0E063, 0x7E2FEFE3, 0x81F0F063, 0x7E2FFFE3, 0x80008F83, 0x7FFF8103,
    0x80009F83, 0x7FFF9103, 0x8000AF83, 0x7FFFA103, 0x8000CF83, 0x7FFFC103, 0x8000DF83, 0x7FFFD103,
    0x0480A103, 0x801F8023, 0x7FF10FA3, 0x801F9023, 0x7FF11FA3, 0x801FA023, 0x7FF12FA3, 0x0420A423,
    0x80008F93, 0x7FFF8113, 0x8000AF93, 0x7FFFA113, 0x8000BF93, 0x7FFFB113, 0x8000CF93, 0x7FFFC113,
    0x8000EF93, 0x7FFFE113, 0x8000FF93, 0x7FFFF113, 0xFFF10093, 0x00009F93, 0x01FF9113, 0x0000DF93,
    0x01FFD113, 0x4000DF93, 0x41FFD113, 0x00511093, 0x800000B7, 0xFFF00113, 0x003100B3, 0x00208FB3,
    0x40208FB3, 0x00209FB3, 0x0020AFB3, 0x0020BFB3, 0x0020CFB3, 0x0020DFB3, 0x4020DFB3, 0x0020EFB3,
    0x0020FFB3, 0x02208FB3, 0x02209FB3, 0x0220AFB3, 0x0220BFB3, 0x0220CFB3, 0x0220DFB3, 0x0220EFB3,
    0x0220FFB3, 0x02000033, 0x0220C1B3, 0x0FF0000F, 0xFFF08F8F, 0x000F808F, 0x00000073, 0x00100073,
    0x00000000, 0xFFFFFFFF, 0x04000033, 0x00001067, 0x00002063, 0x00003063, 0x00003003, 0x00006003,
    0x00003023, 0x02001013, 0x02005013, 0x40001013, 0x40001033, 0x0000100F, 0x00200073, 0x000000F3,
];

/// What is told of them.
pub static LISTING: &str = "\
00000000 000000b7 lui x1, 0
Lui { rd: 1, imm: 0 }
00000004 00001fb7 lui x31, 1
Lui { rd: 31, imm: 4096 }
00000008 10024137 lui x2, 65572
Lui { rd: 2, imm: 268582912 }
0000000c fffff037 lui x0, 1048575
Lui { rd: 0, imm: 4294963200 }
00000010 00000097 auipc x1, 0
Auipc { rd: 1, imm: 0 }
00000014 00001f97 auipc x31, 1
Auipc { rd: 31, imm: 4096 }
00000018 10024117 auipc x2, 65572
Auipc { rd: 2, imm: 268582912 }
0000001c fffff017 auipc x0, 1048575
Auipc { rd: 0, imm: 4294963200 }
00000020 0000006f jal x0, 0
Jal { rd: 0, imm: 0 }
00000024 800000ef jal x1, -1048576
Jal { rd: 1, imm: -1048576 }
00000028 7fffffef jal x31, 1048574
Jal { rd: 31, imm: 1048574 }
0000002c 001002ef jal x5, 2048
Jal { rd: 5, imm: 2048 }
00000030 fffff36f jal x6, -2
Jal { rd: 6, imm: -2 }
00000034 00000067 jalr x0, 0(x0)
Jalr { rd: 0, rs1: 0, imm: 0 }
00000038 800f80e7 jalr x1, -2048(x31)
Jalr { rd: 1, rs1: 31, imm: -2048 }
0000003c 7ff08fe7 jalr x31, 2047(x1)
Jalr { rd: 31, rs1: 1, imm: 2047 }
00000040 00000463 beq x0, x0, 8
Beq { rs1: 0, rs2: 0, imm: 8 }
00000044 002080e3 beq x1, x2, 2048
Beq { rs1: 1, rs2: 2, imm: 2048 }
00000048 81f08063 beq x1, x31, -4096
Beq { rs1: 1, rs2: 31, imm: -4096 }
0000004c 7e2f8fe3 beq x31, x2, 4094
Beq { rs1: 31, rs2: 2, imm: 4094 }
00000050 81f09063 bne x1, x31, -4096
Bne { rs1: 1, rs2: 31, imm: -4096 }
00000054 7e2f9fe3 bne x31, x2, 4094
Bne { rs1: 31, rs2: 2, imm: 4094 }
00000058 81f0c063 blt x1, x31, -4096
Blt { rs1: 1, rs2: 31, imm: -4096 }
0000005c 7e2fcfe3 blt x31, x2, 4094
Blt { rs1: 31, rs2: 2, imm: 4094 }
00000060 81f0d063 bge x1, x31, -4096
Bge { rs1: 1, rs2: 31, imm: -4096 }
00000064 7e2fdfe3 bge x31, x2, 4094
Bge { rs1: 31, rs2: 2, imm: 4094 }
00000068 81f0e063 bltu x1, x31, -4096
Bltu { rs1: 1, rs2: 31, imm: -4096 }
0000006c 7e2fefe3 bltu x31, x2, 4094
Bltu { rs1: 31, rs2: 2, imm: 4094 }
00000070 81f0f063 bgeu x1, x31, -4096
Bgeu { rs1: 1, rs2: 31, imm: -4096 }
00000074 7e2fffe3 bgeu x31, x2, 4094
Bgeu { rs1: 31, rs2: 2, imm: 4094 }
00000078 80008f83 lb x31, -2048(x1)
Lb { rd: 31, rs1: 1, imm: -2048 }
0000007c 7fff8103 lb x2, 2047(x31)
Lb { rd: 2, rs1: 31, imm: 2047 }
00000080 80009f83 lh x31, -2048(x1)
Lh { rd: 31, rs1: 1, imm: -2048 }
00000084 7fff9103 lh x2, 2047(x31)
Lh { rd: 2, rs1: 31, imm: 2047 }
00000088 8000af83 lw x31, -2048(x1)
Lw { rd: 31, rs1: 1, imm: -2048 }
0000008c 7fffa103 lw x2, 2047(x31)
Lw { rd: 2, rs1: 31, imm: 2047 }
00000090 8000cf83 lbu x31, -2048(x1)
Lbu { rd: 31, rs1: 1, imm: -2048 }
00000094 7fffc103 lbu x2, 2047(x31)
Lbu { rd: 2, rs1: 31, imm: 2047 }
00000098 8000df83 lhu x31, -2048(x1)
Lhu { rd: 31, rs1: 1, imm: -2048 }
0000009c 7fffd103 lhu x2, 2047(x31)
Lhu { rd: 2, rs1: 31, imm: 2047 }
000000a0 0480a103 lw x2, 72(x1)
Lw { rd: 2, rs1: 1, imm: 72 }
000000a4 801f8023 sb x1, -2048(x31)
Sb { rs1: 31, rs2: 1, imm: -2048 }
000000a8 7ff10fa3 sb x31, 2047(x2)
Sb { rs1: 2, rs2: 31, imm: 2047 }
000000ac 801f9023 sh x1, -2048(x31)
Sh { rs1: 31, rs2: 1, imm: -2048 }
000000b0 7ff11fa3 sh x31, 2047(x2)
Sh { rs1: 2, rs2: 31, imm: 2047 }
000000b4 801fa023 sw x1, -2048(x31)
Sw { rs1: 31, rs2: 1, imm: -2048 }
000000b8 7ff12fa3 sw x31, 2047(x2)
Sw { rs1: 2, rs2: 31, imm: 2047 }
000000bc 0420a423 sw x2, 72(x1)
Sw { rs1: 1, rs2: 2, imm: 72 }
000000c0 80008f93 addi x31, x1, -2048
Addi { rd: 31, rs1: 1, imm: -2048 }
000000c4 7fff8113 addi x2, x31, 2047
Addi { rd: 2, rs1: 31, imm: 2047 }
000000c8 8000af93 slti x31, x1, -2048
Slti { rd: 31, rs1: 1, imm: -2048 }
000000cc 7fffa113 slti x2, x31, 2047
Slti { rd: 2, rs1: 31, imm: 2047 }
000000d0 8000bf93 sltiu x31, x1, -2048
Sltiu { rd: 31, rs1: 1, imm: -2048 }
000000d4 7fffb113 sltiu x2, x31, 2047
Sltiu { rd: 2, rs1: 31, imm: 2047 }
000000d8 8000cf93 xori x31, x1, -2048
Xori { rd: 31, rs1: 1, imm: -2048 }
000000dc 7fffc113 xori x2, x31, 2047
Xori { rd: 2, rs1: 31, imm: 2047 }
000000e0 8000ef93 ori x31, x1, -2048
Ori { rd: 31, rs1: 1, imm: -2048 }
000000e4 7fffe113 ori x2, x31, 2047
Ori { rd: 2, rs1: 31, imm: 2047 }
000000e8 8000ff93 andi x31, x1, -2048
Andi { rd: 31, rs1: 1, imm: -2048 }
000000ec 7ffff113 andi x2, x31, 2047
Andi { rd: 2, rs1: 31, imm: 2047 }
000000f0 fff10093 addi x1, x2, -1
Addi { rd: 1, rs1: 2, imm: -1 }
000000f4 00009f93 slli x31, x1, 0
Slli { rd: 31, rs1: 1, imm: 0 }
000000f8 01ff9113 slli x2, x31, 31
Slli { rd: 2, rs1: 31, imm: 31 }
000000fc 0000df93 srli x31, x1, 0
Srli { rd: 31, rs1: 1, imm: 0 }
00000100 01ffd113 srli x2, x31, 31
Srli { rd: 2, rs1: 31, imm: 31 }
00000104 4000df93 srai x31, x1, 0
Srai { rd: 31, rs1: 1, imm: 0 }
00000108 41ffd113 srai x2, x31, 31
Srai { rd: 2, rs1: 31, imm: 31 }
0000010c 00511093 slli x1, x2, 5
Slli { rd: 1, rs1: 2, imm: 5 }
00000110 800000b7 lui x1, 524288
Lui { rd: 1, imm: 2147483648 }
00000114 fff00113 addi x2, x0, -1
Addi { rd: 2, rs1: 0, imm: -1 }
00000118 003100b3 add x1, x2, x3
Add { rd: 1, rs1: 2, rs2: 3 }
0000011c 00208fb3 add x31, x1, x2
Add { rd: 31, rs1: 1, rs2: 2 }
00000120 40208fb3 sub x31, x1, x2
Sub { rd: 31, rs1: 1, rs2: 2 }
00000124 00209fb3 sll x31, x1, x2
Sll { rd: 31, rs1: 1, rs2: 2 }
00000128 0020afb3 slt x31, x1, x2
Slt { rd: 31, rs1: 1, rs2: 2 }
0000012c 0020bfb3 sltu x31, x1, x2
Sltu { rd: 31, rs1: 1, rs2: 2 }
00000130 0020cfb3 xor x31, x1, x2
Xor { rd: 31, rs1: 1, rs2: 2 }
00000134 0020dfb3 srl x31, x1, x2
Srl { rd: 31, rs1: 1, rs2: 2 }
00000138 4020dfb3 sra x31, x1, x2
Sra { rd: 31, rs1: 1, rs2: 2 }
0000013c 0020efb3 or x31, x1, x2
Or { rd: 31, rs1: 1, rs2: 2 }
00000140 0020ffb3 and x31, x1, x2
And { rd: 31, rs1: 1, rs2: 2 }
00000144 02208fb3 mul x31, x1, x2
Mul { rd: 31, rs1: 1, rs2: 2 }
00000148 02209fb3 mulh x31, x1, x2
Mulh { rd: 31, rs1: 1, rs2: 2 }
0000014c 0220afb3 mulhsu x31, x1, x2
Mulhsu { rd: 31, rs1: 1, rs2: 2 }
00000150 0220bfb3 mulhu x31, x1, x2
Mulhu { rd: 31, rs1: 1, rs2: 2 }
00000154 0220cfb3 div x31, x1, x2
Div { rd: 31, rs1: 1, rs2: 2 }
00000158 0220dfb3 divu x31, x1, x2
Divu { rd: 31, rs1: 1, rs2: 2 }
0000015c 0220efb3 rem x31, x1, x2
Rem { rd: 31, rs1: 1, rs2: 2 }
00000160 0220ffb3 remu x31, x1, x2
Remu { rd: 31, rs1: 1, rs2: 2 }
00000164 02000033 mul x0, x0, x0
Mul { rd: 0, rs1: 0, rs2: 0 }
00000168 0220c1b3 div x3, x1, x2
Div { rd: 3, rs1: 1, rs2: 2 }
0000016c 0ff0000f fence 255, x0, x0
Fence { rd: 0, rs1: 0, imm: 255 }
00000170 fff08f8f fence 4095, x1, x31
Fence { rd: 31, rs1: 1, imm: 4095 }
00000174 000f808f fence 0, x31, x1
Fence { rd: 1, rs1: 31, imm: 0 }
00000178 00000073 ecall
Ecall
0000017c 00100073 ebreak
Ebreak
00000180 00000000 word
00000184 ffffffff word
00000188 04000033 word
0000018c 00001067 word
00000190 00002063 word
00000194 00003063 word
00000198 00003003 word
0000019c 00006003 word
000001a0 00003023 word
000001a4 02001013 word
000001a8 02005013 word
000001ac 40001013 word
000001b0 40001033 word
000001b4 0000100f word
000001b8 00200073 word
000001bc 000000f3 word
";
