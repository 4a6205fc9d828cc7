//! A law about courses, for callers: there is one, so that nothing is said of none.

ghost use Rattle.std.specs.Prelude.{ℕ, List, Option};
ghost use Rattle.edge_io.specs.Files.{Files};
ghost use Rattle.option_eval.specs.Places.{Means};
ghost use Rattle.snort_setup.specs.Setup.{IsSetup, Ready, Warned};
ghost use Rattle.snort_setup.specs.Words.{Words};
ghost use Rattle.command_words.specs.CommandLine.{Asked};
ghost use Rattle.snort_engine.specs.SomeCourse.{HasSomeAnswer, HasSomeCourse};

/// Whatever words ask for, whatever files there are, whichever rules a test says match, and whichever rule lines have
/// a pattern that the maker refuses, there is a course (`some`): each file that is read has a reading, and each rule
/// line is a rule or has a fault (`setup`). Whatever the maker means there is a test that tells it, and so an answer
/// (`answered`).
pub fn words_have_a_course()
    ensures some { HasSomeCourse }
    ensures setup { (words : Words) (files : Files) (refused : List ℕ)
        → (given : Warned Ready) × IsSetup words files refused given }
    ensures answered { (asked : Option Asked) (files : Files) (means : Means) (refused : List ℕ)
        → HasSomeAnswer asked files means refused }
{}
