// A job: a mode and the options.
ghost use Rattle.std.specs.Prelude.{◌≡◌};
ghost use Rattle.lb_words.specs.Words.{name_of};

/// What the program does.
#[derive(Clone, Copy, Debug, PartialEq, Eq)]
pub enum Mode {
    /// Checks a program, and tells what it asks for.
    Check,
    /// Prints a program in its canonical form.
    Print,
    /// Compiles a program, and writes its image.
    Compile,
    /// Lists the instructions of an image, or of a program that is compiled.
    List,
    /// Runs a program as its source means it.
    Interp,
    /// Runs a compiled program on the instruction machine.
    Isa,
    /// Runs a compiled program on the whole machine.
    Run,
    /// Runs the supplied program on the whole machine.
    Lamp,
    /// Replays a log on the whole machine.
    Replay,
    /// Judges a trace.
    Judge,
    /// Makes a large program and runs it.
    Gen,
}

impl Mode {
    /// The word that names the mode.
    pub fn name(self) -> &'static str
        ensures { result.now ≡ name_of self }
    {
        match self {
            Mode::Check => "check",
            Mode::Print => "print",
            Mode::Compile => "compile",
            Mode::List => "list",
            Mode::Interp => "interp",
            Mode::Isa => "isa",
            Mode::Run => "run",
            Mode::Lamp => "lamp",
            Mode::Replay => "replay",
            Mode::Judge => "judge",
            Mode::Gen => "gen",
        }
    }
}

/// A mode and its options.
#[derive(Clone, Copy, Debug, PartialEq, Eq)]
pub struct Job {
    /// What is done.
    pub mode: Mode,
    /// The most events or instructions of a run, 1 to 4,000,000.
    pub events: u32,
    /// The number of workers, 1 to 8.
    pub workers: u8,
    /// The seed of the workers' choices.
    pub seed: u32,
    /// Whether the log is shown.
    pub log: bool,
    /// Whether the trace is shown.
    pub trace: bool,
}
