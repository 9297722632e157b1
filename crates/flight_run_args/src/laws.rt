//! Command lines that the program takes.

ghost use Rattle.flight_run_args.specs.Words.{GiveAPlan, compile_words, words_lacking_a_file, run_words, run_words_otherwise};

/// Both commands of the program can be given, with options before their files or after them; a command that lacks a file
/// gives no plan.
pub fn words_give_plans()
    ensures compile_words { GiveAPlan compile_words }
    ensures run_words { GiveAPlan run_words }
    ensures run_words_otherwise { GiveAPlan run_words_otherwise }
    ensures words_lacking_a_file { GiveAPlan words_lacking_a_file → ⊥ }
{}
