//! What holds of the definitions. Each call does nothing: its clause is the law.
ghost use Rattle.source_compile.specs.Laws.{AnswerIsOne, AssembledIsSource, HasAnswer};

/// Each source has exactly one answer.
pub fn one_answer()
    ensures made { HasAnswer }
    ensures once { AnswerIsOne }
{}

/// Each text that the assembler takes is a source, and compiles to the same DNA where the limit lets it.
pub fn assembled_texts()
    ensures { AssembledIsSource }
{}
