ghost use Rattle.base_partition.specs.Laws.{AnswerOnceLaw, ClassesOnceLaw};

/// A model has one list of classes: their numbers, marks, places and base partitions are given by the model alone.
pub fn classes_once_law()
    ensures { ClassesOnceLaw }
{}

/// Two answers for a model are one, but for want of memory: its classes, or the first rule of classes that it breaks.
pub fn answer_once_law()
    ensures { AnswerOnceLaw }
{}
