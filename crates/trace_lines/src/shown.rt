// What is shown of the grammar and of texts.
ghost use Rattle.trace_lines.specs.Cut.{LinesAre, CutAnywhere};
ghost use Rattle.trace_lines.specs.Grammar.{ReadsSetup, ReadsCommand, Unambiguous};

// No line has two readings, before the start or after it.
pub fn a_line_is_read_one_way()
    ensures before_the_start { Unambiguous ReadsSetup }
    ensures after_it { Unambiguous ReadsCommand }
{}

// The lines of a text are its whole lines and the one that has begun; and where a text is cut, what has begun goes on.
pub fn a_text_may_be_cut_anywhere()
    ensures lines { LinesAre }
    ensures cut { CutAnywhere }
{}
