//! The laws of lines and runs, each the contract of a function that does nothing.

ghost use Rattle.std.specs.Prelude.{◌≡◌};
ghost use Rattle.cs_lines.specs.declared.serve.TheConstants.{ASKS};
ghost use Rattle.cs_lines.specs.Laws.{AllTaken, EndedByFeed, EndedLines, EndedWhole, LineOrEnd, NoneTaken, OneMoreTaken, OneRun};

use crate::serve::Serve;

/// Lines are taken off an input one after another, until all are taken. There is a next one, or the input is at its end.
pub fn lines_taken()
    ensures none { NoneTaken }
    ensures more { OneMoreTaken }
    ensures all { AllTaken }
    ensures next { LineOrEnd }
{}

/// An input's ended part ends with its last line feed. Behind that at most one line is left.
pub fn ended_lines()
    ensures whole { EndedWhole }
    ensures feed { EndedByFeed }
    ensures lines { EndedLines }
{}

/// How often a reader is asked at most.
pub fn most_asks()
    ensures { ASKS ≡ 1099511627776 }
{}

/// Where each request has one answer, a run's lines have one list of answers, up to want of memory.
pub fn one_run<S: Serve>(_server: &S)
    ensures { OneRun S.serves S.stays }
{}
