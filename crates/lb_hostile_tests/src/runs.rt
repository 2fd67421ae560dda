// Small runs of the modes, whose answers were worked out by hand.

/// A run: the words behind the program's name, an input, the first line of what is told (the status, and whether there is an
/// image), and what is written.
pub static RUNS: [(&str, &str, &str, &str); 8] = [
    (
        "check",
        "fn init() { } fn loop() { }",
        "0",
        "ok functions 2 words 176 stack 136\n",
    ),
    ("check", "fn init() { }", "3", "check no-loop\n"),
    (
        "print",
        "fn init(){x=0x1;}fn loop(){}",
        "0",
        "fn init() {\n  x = 1;\n}\nfn loop() {\n}\n",
    ),
    (
        "interp --trace",
        "fn init(){x=MMIOREAD(0x10024048);}fn loop(){x=MMIOREAD(0x10024048);MMIOWRITE(0x1001200C,x);}\n%%\n00000007\n0000000A",
        "0 image",
        "mmio 3\nend starved\ntrace\nld 10024048 00000007\nld 10024048 0000000a\nst 1001200c 0000000a\n",
    ),
    (
        "isa --trace --events 500",
        "fn init(){MMIOWRITE(0x1001200C,(7/0));}fn loop(){}",
        "0 image",
        "done 500\nmmio 1\nend running\ntrace\nst 1001200c ffffffff\n",
    ),
    (
        "run --log --trace --events 4",
        "fn init(){}fn loop(){}\n%%\n!a1B2\n00\n",
        "0 image",
        "events 4\ndone 0\nretired 0\nmmio 0\narrived 0\nlamp off\nend running\ntrace\nlog\nB0F0F0D0\n",
    ),
    (
        "replay --log",
        "fn init(){}fn loop(){}\n%%\n!a1B2\n%%\nF0\nB7D3\n",
        "0 image",
        "events 3\ndone 0\nretired 0\nmmio 0\narrived 0\nlamp off\nend running\nlog\nF0B7D3\n",
    ),
    (
        "judge",
        "st 10012038 0000003c\nst 10012008 00800001\n",
        "0",
        "leaves at 1\n",
    ),
];
