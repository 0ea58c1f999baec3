//! The numbers of scripts and of their answers.

ghost use Rattle.generated_script.specs.declared.course.TheConstants as generated_script_course;
ghost use Rattle.generated_script.specs.declared.numbers.TheConstants as generated_script_numbers;
ghost use Rattle.replay_script.specs.declared.step.TheConstants as replay_script_step;
ghost use Rattle.script_line.specs.declared.answer.TheConstants as script_line_answer;
ghost use Rattle.script_line.specs.declared.grammar.TheConstants as script_line_grammar;
ghost use Rattle.std.specs.Prelude.{◌≡◌, ◌^◌};

/// The bytes between fields and items, the line feed, and the longest method.
pub fn numbers_of_the_lines_of_scripts()
    ensures line_feed { script_line_answer.LINE_FEED ≡ 10 }
    ensures bar { script_line_grammar.BAR ≡ 124 }
    ensures comma { script_line_grammar.COMMA ≡ 44 }
    ensures longest_method { script_line_grammar.LONGEST_METHOD ≡ 127 }
    ensures space { script_line_grammar.SPACE ≡ 32 }
{}

/// The longest line and the longest script.
pub fn numbers_of_scripts()
    ensures line_limit { replay_script_step.LINE_LIMIT ≡ 40000000 }
    ensures script_limit { replay_script_step.SCRIPT_LIMIT ≡ 2 ^ 40 }
{}

/// How many rounds, seeds, passes and paths there are.
pub fn numbers_of_generated_scripts()
    ensures passes { generated_script_course.PASSES ≡ 4 }
    ensures paths { generated_script_course.PATHS ≡ 50 }
    ensures most_rounds { generated_script_numbers.MOST_ROUNDS ≡ 1000000 }
    ensures most_seed { generated_script_numbers.MOST_SEED ≡ 2147483647 }
{}
