// Bytes, and what is answered to them where they are cut or changed. A first line has the answers to their beginnings, from
// none of them to all. For each byte a line follows with the answers to the bytes in which one of its bits is flipped, from
// the lowest one on. `+`: they are read. A number: the line that is wrong, or, with the kind, the place in the image. A
// model of the readers that was written apart from them told the answers.

/// An image of two words of code and two functions, whose frames have two sites and one.
pub static IMAGE: &[u8] =
    b"LBIM\x01\0\0\0\x02\0\0\0\x04\0\0\0\x02\0\0\0\x08\0\0\0\x02\0\0\0\0\0\0\0\x04\0\0\0\x0c\0\0\0\x01\0\0\0\x08\0\0\0o\0\0\0\x13\0\0\0";

/// The answers.
pub static IMAGE_ANSWERS: &str = "\
0-Truncated 1-Truncated 2-Truncated 3-Truncated 4-Truncated 5-Truncated 6-Truncated 7-Truncated 8-Truncated 9-Truncated 10-Truncated 11-Truncated 12-Truncated 13-Truncated 14-Truncated 15-Truncated 16-Truncated 17-Truncated 18-Truncated 19-Truncated 20-Truncated 21-Truncated 22-Truncated 23-Truncated 24-Truncated 25-Truncated 26-Truncated 27-Truncated 28-Truncated 29-Truncated 30-Truncated 31-Truncated 32-Truncated 33-Truncated 34-Truncated 35-Truncated 36-Truncated 37-Truncated 38-Truncated 39-Truncated 40-Truncated 41-Truncated 42-Truncated 43-Truncated 44-Truncated 45-Truncated 46-Truncated 47-Truncated 48-Truncated 49-Truncated 50-Truncated 51-Truncated 52-Truncated 53-Truncated 54-Truncated 55-Truncated +
0-BadMagic 0-BadMagic 0-BadMagic 0-BadMagic 0-BadMagic 0-BadMagic 0-BadMagic 0-BadMagic
0-BadMagic 0-BadMagic 0-BadMagic 0-BadMagic 0-BadMagic 0-BadMagic 0-BadMagic 0-BadMagic
0-BadMagic 0-BadMagic 0-BadMagic 0-BadMagic 0-BadMagic 0-BadMagic 0-BadMagic 0-BadMagic
0-BadMagic 0-BadMagic 0-BadMagic 0-BadMagic 0-BadMagic 0-BadMagic 0-BadMagic 0-BadMagic
4-BadVersion 4-BadVersion 4-BadVersion 4-BadVersion 4-BadVersion 4-BadVersion 4-BadVersion 4-BadVersion
4-BadVersion 4-BadVersion 4-BadVersion 4-BadVersion 4-BadVersion 4-BadVersion 4-BadVersion 4-BadVersion
4-BadVersion 4-BadVersion 4-BadVersion 4-BadVersion 4-BadVersion 4-BadVersion 4-BadVersion 4-BadVersion
4-BadVersion 4-BadVersion 4-BadVersion 4-BadVersion 4-BadVersion 4-BadVersion 4-BadVersion 4-BadVersion
56-Truncated 8-BadCode 56-Truncated 56-Truncated 56-Truncated 56-Truncated 56-Truncated 56-Truncated
56-Truncated 56-Truncated 56-Truncated 56-Truncated 56-Truncated 56-Truncated 56-Truncated 8-BadCode
8-BadCode 8-BadCode 8-BadCode 8-BadCode 8-BadCode 8-BadCode 8-BadCode 8-BadCode
8-BadCode 8-BadCode 8-BadCode 8-BadCode 8-BadCode 8-BadCode 8-BadCode 8-BadCode
12-BadCode 12-BadCode + 12-BadCode 12-BadCode 12-BadCode 12-BadCode 12-BadCode
12-BadCode 12-BadCode 12-BadCode 12-BadCode 12-BadCode 12-BadCode 12-BadCode 12-BadCode
12-BadCode 12-BadCode 12-BadCode 12-BadCode 12-BadCode 12-BadCode 12-BadCode 12-BadCode
12-BadCode 12-BadCode 12-BadCode 12-BadCode 12-BadCode 12-BadCode 12-BadCode 12-BadCode
48-BadLayout 28-Extra 48-BadLayout 48-BadLayout 48-BadLayout 48-BadLayout 48-BadLayout 48-BadLayout
16-BadLayout 16-BadLayout 16-BadLayout 16-BadLayout 16-BadLayout 16-BadLayout 16-BadLayout 16-BadLayout
16-BadLayout 16-BadLayout 16-BadLayout 16-BadLayout 16-BadLayout 16-BadLayout 16-BadLayout 16-BadLayout
16-BadLayout 16-BadLayout 16-BadLayout 16-BadLayout 16-BadLayout 16-BadLayout 16-BadLayout 16-BadLayout
20-BadLayout 20-BadLayout + 24-BadLayout + + + +
+ + + + + + + +
20-BadLayout 20-BadLayout 20-BadLayout 20-BadLayout 20-BadLayout 20-BadLayout 20-BadLayout 20-BadLayout
20-BadLayout 20-BadLayout 20-BadLayout 20-BadLayout 20-BadLayout 20-BadLayout 20-BadLayout 20-BadLayout
24-BadLayout 32-BadLayout 24-BadLayout 24-BadLayout 24-BadLayout 24-BadLayout 24-BadLayout 24-BadLayout
24-BadLayout 24-BadLayout 24-BadLayout 24-BadLayout 24-BadLayout 24-BadLayout 24-BadLayout 24-BadLayout
24-BadLayout 24-BadLayout 24-BadLayout 24-BadLayout 24-BadLayout 24-BadLayout 24-BadLayout 24-BadLayout
24-BadLayout 24-BadLayout 24-BadLayout 24-BadLayout 24-BadLayout 24-BadLayout 24-BadLayout 24-BadLayout
28-BadLayout 28-BadLayout + 28-BadLayout 28-BadLayout 28-BadLayout 28-BadLayout 28-BadLayout
28-BadLayout 28-BadLayout 28-BadLayout 28-BadLayout 28-BadLayout 28-BadLayout 28-BadLayout 28-BadLayout
28-BadLayout 28-BadLayout 28-BadLayout 28-BadLayout 28-BadLayout 28-BadLayout 28-BadLayout 28-BadLayout
28-BadLayout 28-BadLayout 28-BadLayout 28-BadLayout 28-BadLayout 28-BadLayout 28-BadLayout 28-BadLayout
32-BadLayout 32-BadLayout + 32-BadLayout 32-BadLayout 32-BadLayout 32-BadLayout 32-BadLayout
32-BadLayout 32-BadLayout 32-BadLayout 32-BadLayout 32-BadLayout 32-BadLayout 32-BadLayout 32-BadLayout
32-BadLayout 32-BadLayout 32-BadLayout 32-BadLayout 32-BadLayout 32-BadLayout 32-BadLayout 32-BadLayout
32-BadLayout 32-BadLayout 32-BadLayout 32-BadLayout 32-BadLayout 32-BadLayout 32-BadLayout 32-BadLayout
36-BadLayout 36-BadLayout 44-BadLayout 44-BadLayout + + + +
+ + + + + + + +
36-BadLayout 36-BadLayout 36-BadLayout 36-BadLayout 36-BadLayout 36-BadLayout 36-BadLayout 36-BadLayout
36-BadLayout 36-BadLayout 36-BadLayout 36-BadLayout 36-BadLayout 36-BadLayout 36-BadLayout 36-BadLayout
52-Extra 48-BadLayout 40-BadLayout 40-BadLayout 40-BadLayout 40-BadLayout 40-BadLayout 40-BadLayout
40-BadLayout 40-BadLayout 40-BadLayout 40-BadLayout 40-BadLayout 40-BadLayout 40-BadLayout 40-BadLayout
40-BadLayout 40-BadLayout 40-BadLayout 40-BadLayout 40-BadLayout 40-BadLayout 40-BadLayout 40-BadLayout
40-BadLayout 40-BadLayout 40-BadLayout 40-BadLayout 40-BadLayout 40-BadLayout 40-BadLayout 40-BadLayout
44-BadLayout 44-BadLayout 44-BadLayout + 44-BadLayout 44-BadLayout 44-BadLayout 44-BadLayout
44-BadLayout 44-BadLayout 44-BadLayout 44-BadLayout 44-BadLayout 44-BadLayout 44-BadLayout 44-BadLayout
44-BadLayout 44-BadLayout 44-BadLayout 44-BadLayout 44-BadLayout 44-BadLayout 44-BadLayout 44-BadLayout
44-BadLayout 44-BadLayout 44-BadLayout 44-BadLayout 44-BadLayout 44-BadLayout 44-BadLayout 44-BadLayout
+ + + + + + + +
+ + + + + + + +
+ + + + + + + +
+ + + + + + + +
+ + + + + + + +
+ + + + + + + +
+ + + + + + + +
+ + + + + + + +";

/// A trace of two accesses.
pub static TRACE: &str = "ld 10024048 0000000A\r\n\nst 1001200c ffFFffff";

/// The answers.
pub static TRACE_ANSWERS: &str = "\
+ 1 1 1 1 1 1 1 1 1 1 1 1 1 1 1 1 1 1 1 + + + + 3 3 3 3 3 3 3 3 3 3 3 3 3 3 3 3 3 3 3 +
1 1 1 1 1 1 1 1
1 1 1 1 1 1 1 1
1 1 1 1 1 1 1 1
+ + + + 1 1 1 1
+ + + + 1 1 1 1
+ + + + 1 1 1 1
+ + + 1 1 1 1 1
+ + + 1 1 1 1 1
+ + + + 1 1 1 1
+ + + 1 1 1 1 1
+ 1 1 + 1 1 1 1
1 1 1 1 1 1 1 1
+ + + + 1 1 1 1
+ + + + 1 1 1 1
+ + + + 1 1 1 1
+ + + + 1 1 1 1
+ + + + 1 1 1 1
+ + + + 1 1 1 1
+ + + + 1 1 1 1
1 + + 1 1 + 1 1
1 1 1 1 1 1 1 1
1 1 1 1 1 1 1 1
2 2 2 2 2 2 2 2
3 3 3 3 3 3 3 3
3 3 3 3 3 3 3 3
3 3 3 3 3 3 3 3
+ + + + 3 3 3 3
+ + + + 3 3 3 3
+ + + + 3 3 3 3
+ + + + 3 3 3 3
+ + + 3 3 3 3 3
+ + + + 3 3 3 3
+ + + + 3 3 3 3
+ + 3 3 3 + 3 3
3 3 3 3 3 3 3 3
3 + + 3 3 + 3 3
3 + + 3 3 + 3 3
3 + + 3 3 + 3 3
3 + + 3 3 + 3 3
3 + + 3 3 + 3 3
3 + + 3 3 + 3 3
3 + + 3 3 + 3 3
3 + + 3 3 + 3 3";

/// Two replies.
pub static REPLIES: &str = "00000005\n\r\nDEADbeef\r";

/// The answers.
pub static REPLIES_ANSWERS: &str = "\
+ 1 1 1 1 1 1 1 + + + + 3 3 3 3 3 3 3 + +
+ + + + 1 1 1 1
+ + + + 1 1 1 1
+ + + + 1 1 1 1
+ + + + 1 1 1 1
+ + + + 1 1 1 1
+ + + + 1 1 1 1
+ + + + 1 1 1 1
+ + + 1 1 1 1 1
1 1 1 1 1 1 1 1
2 2 2 2 2 2 2 2
2 2 2 2 2 2 2 2
+ + 3 3 3 + 3 3
+ 3 + 3 3 + 3 3
3 + + 3 3 + 3 3
+ + 3 3 3 + 3 3
+ 3 + 3 3 + 3 3
+ 3 + 3 3 + 3 3
+ 3 + 3 3 + 3 3
3 + + 3 3 + 3 3
3 3 3 3 3 3 3 3";

/// Two frames, the second one faulty.
pub static FRAMES: &str = "Ff0A\r\n\n!aB01\n";

/// The answers.
pub static FRAMES_ANSWERS: &str = "\
+ 1 + 1 + + + + 3 3 + 3 + +
1 + + 1 1 + 1 1
1 + + 1 1 + 1 1
+ + + + 1 1 1 1
1 + + 1 1 + 1 1
1 1 1 1 1 1 1 1
1 1 1 1 1 1 1 1
2 2 2 2 2 2 2 2
3 3 3 3 3 3 3 3
3 + + 3 3 + 3 3
+ 3 + 3 3 + 3 3
+ + + + 3 3 3 3
+ + + + 3 3 3 3
3 3 3 3 3 3 3 3";

/// A log of an entry of each kind.
pub static LOG: &str = "F0D1X2R3M4\r\n\r\nW5B6S7A0\r";

/// The answers.
pub static LOG_ANSWERS: &str = "\
+ 1 + 1 + 1 + 1 + 1 + + + + + 3 + 3 + 3 + 3 + +
1 + + 1 1 1 1 1
+ + + 1 1 1 1 1
1 + 1 1 1 1 1 1
+ + + 1 1 1 1 1
1 1 1 1 1 1 1 1
+ + + 1 1 1 1 1
+ 1 1 1 + 1 1 1
+ + + 1 1 1 1 1
1 1 1 1 1 1 1 1
+ + + 1 1 1 1 1
1 1 1 1 1 1 1 1
1 1 1 1 1 1 1 1
2 2 2 2 2 2 2 2
2 2 2 2 2 2 2 2
3 3 + 3 3 3 3 3
+ + + 3 3 3 3 3
3 3 + 3 + 3 3 3
+ + + 3 3 3 3 3
+ 3 + 3 3 3 3 3
+ + + 3 3 3 3 3
3 3 3 3 3 3 3 3
+ + + 3 3 3 3 3
3 3 3 3 3 3 3 3";
