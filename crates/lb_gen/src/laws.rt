// What is proved of the programs of all draws. No function here computes anything.
ghost use Rattle.lb_gen.specs.Laws.{AllAreLarge};

/// Whatever is drawn, the program keeps the rules of the language. It has 66 functions, and needs
/// 18,232 words of code and 10,640 bytes of stack.
pub fn all_are_large()
    ensures { AllAreLarge }
{}
