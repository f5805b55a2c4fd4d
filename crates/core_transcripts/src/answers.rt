//! Which lines of a script the core answers, and in which order, over every run. Each law is the contract of a public function with an empty body. All but the
//! first have the premise that no two lines of the script have the same number, as in every script that was read: where two lines had one number, the answer
//! to one of them would count for both.

ghost use Rattle.core_transcripts.specs.Answers.{ReadScriptsHaveOwnNumbers, LinesAreAnsweredOnce, AnswersFollowTheScript, NextLinesAreByTheRecord};
ghost use Rattle.core_transcripts.specs.Answers.{LinesWaitForTheHost, HostLinesWait, LinesAreUnderWayOnce, LinesUnderWayAreNext, OwnNumbersAreNeeded};

/// No two lines of a script that was read have the same number.
pub fn read_scripts_have_own_numbers()
    ensures { ReadScriptsHaveOwnNumbers }
{}

/// Over every run from an opening no line is answered twice, no line is under way at two servers, and one that is under way is its server's next and not answered.
/// Without the premise it isn't so: of two servers that each have begun a line of number 1, both answer it.
pub fn each_line_is_answered_once()
    ensures once { LinesAreAnsweredOnce }
    ensures under_way { LinesAreUnderWayOnce }
    ensures next { LinesUnderWayAreNext }
    ensures needed { OwnNumbersAreNeeded }
{}

/// Over every run from an opening what a server has answered are the first of its lines, in the order of the script; and so it is with the host. The next line
/// of each is the one behind as many as the record has answers of it.
pub fn answers_follow_the_script()
    ensures order { AnswersFollowTheScript }
    ensures next { NextLinesAreByTheRecord }
{}

/// Over every run from an opening a line of the host is answered only behind every line before it, and every other line only behind those of the host before it.
pub fn host_lines_are_answered_in_their_place()
    ensures host { HostLinesWait }
    ensures others { LinesWaitForTheHost }
{}
