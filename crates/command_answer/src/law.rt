ghost use Rattle.command_answer.specs.Actions.{OneAnswerLaw};
ghost use Rattle.command_answer.specs.Calls.{CallLaw, PrintedLaw};

/// Two answers to the same words over the same files are one.
pub fn one_answer_law()
    ensures { OneAnswerLaw }
{}

/// A call that ends with a right answer, or with a sink that failed in its midst, answers refused words as such, gives an
/// answer where no count rose and memory was found, and gives no other status for one of an answer.
pub fn call_law()
    ensures { CallLaw }
{}

/// Where the files are known, no count rose and memory was found, a call prints the only answer.
pub fn printed_law()
    ensures { PrintedLaw }
{}
