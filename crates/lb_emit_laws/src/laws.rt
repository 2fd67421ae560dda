// Laws of the code of placed programs: no function here computes anything.
ghost use Rattle.lb_emit_laws.specs.Laws.{ProgramCodeIsInRange, ProgramWordsAreCode};

/// Of a placed program that is in order, with its layout: the layout is valid for the program; all fields are in the ranges
/// of an image; there are no more words than the program asks for, and among them no more loads and stores. Whatever words
/// the devices reply, where the program does nothing undefined with fuel n: what n instructions do to devices is a beginning
/// of what the program does, and the processor isn't halted behind them; and the code does what the program does within
/// (n + 1) times as many instructions as the program asks for words.
pub fn program_words_are_code()
    ensures { ProgramWordsAreCode }
{}

/// Each instruction of the code of a placed program that is in order is in range, so that its word has it.
pub fn program_code_is_in_range()
    ensures { ProgramCodeIsInRange }
{}
