// Schedules of straight programs: what may be fired when, and what comes of it. Five lines for each: what it shows, its words, the kinds that are
// fired by their letters, a small one where the kind is not enabled, the replies, and what is told of it.

/// The schedules.
pub static PROGRAMS: &str = "\
a load on the wrong path is never at a device, and a pending register is waited for: lui x1, 0x10024; beq x0, x0, 8; lw x2, 72(x1); jal x0, 0
100240b7 00000463 0480a103 0000006f
F F D F D F X X d W W D X D X

done 2 retired 2 fetch 0000000c,x1 10024000
twelve times addi x1, x1, 1: one instruction at a time
00108093 00108093 00108093 00108093 00108093 00108093 00108093 00108093 00108093 00108093 00108093 00108093 0000006f
F D X W F D X W F D X W F D X W F D X W F D X W F D X W F D X W F D X W F D X W F D X W F D X W

done 12 retired 12 fetch 00000030,x1 0000000c
the same, fetching two ahead
00108093 00108093 00108093 00108093 00108093 00108093 00108093 00108093 00108093 00108093 00108093 00108093 0000006f
F F D X W F D X W F D X W F D X W F D X W F D X W F D X W F D X W F D X W F D X W F D X W F D X W

done 12 retired 12 fetch 00000034,x1 0000000c
the same, in pairs
00108093 00108093 00108093 00108093 00108093 00108093 00108093 00108093 00108093 00108093 00108093 00108093 0000006f
F D F X W D X W F D F X W D X W F D F X W D X W F D F X W D X W F D F X W D X W F D F X W D X W

done 12 retired 12 fetch 00000030,x1 0000000c
each operand waits for the instruction before: lui x1, 1; addi x2, x1, 1; add x3, x1, x2
000010b7 00108113 002081b3
F D F d X d W D F d X d W D X W

done 3 retired 3 fetch 0000000c,x1 00001000,x2 00001001,x3 00002001
a register that both write: addi x1, x0, 5; addi x1, x0, 6
00500093 00600093
F D F d X d W D X W

done 2 retired 2 fetch 00000008,x1 00000006
a store waits for what it stores: lui x1, 0x10024; lw x2, 72(x1); sw x2, 72(x1)
100240b7 0480a103 0420a423
F D F d X W D F d m r X d r w M d m W D m X r w M m
c0ffee11
ld 10024048 c0ffee11,st 10024048 c0ffee11,done 3 retired 2 fetch 0000000c,x1 10024000,x2 c0ffee11
an access that waits: lui x1, 0x10024; lw x2, 72(x1)
100240b7 0480a103
F F D X W D X

wants read 10024048,done 1 retired 1 fetch 00000008,x1 10024000
a write that waits: lui x1, 0x10024; sw x1, 72(x1)
100240b7 0410a423
F F D X W D X b s a

wants write 10024048 10024000,done 1 retired 1 fetch 00000008,x1 10024000
RAM, and done beside retired: lui x1, 1; addi x2, x0, -2; sw x2, 3(x1); lh x3, 4(x1); lbu x4, 3(x1)
000010b7 ffe00113 0020a1a3 00409183 0030c203
F F D D F X X d W W D F F X m w R r D D W X X w R W R

done 5 retired 4 fetch 00000014,x1 00001000,x2 fffffffe,x3 ffffffff
";
