//! Laws of the definitions.

ghost use Rattle.hp_lines.specs.Journal.{AcceptedLinesReplay};
ghost use Rattle.hp_lines.specs.Laws.{BytesAreLines, PiecesCompose, ScriptsAreRead};
ghost use Rattle.hp_lines.specs.Sound.{CheckedAreSound, CheckedStaySound, JsonLinesFit};
ghost use Rattle.hp_lines.specs.Snapshots.{AlikeAnswer, SnapshotsAnswer};

/// Accepted lines replay as one script, whose items are those of the first line and then the accepted ones. The
/// answers, without their last lines, are the text of the units in the script's report, and the state is the script's
/// final state. The script's JSON, and a text that stands for it, is read as the script, unless it is longer than a
/// script may be. This holds for lines of JSON and for lines of text, and where the bytes of a script's file are the
/// first line.
pub fn accepted_lines_replay()
    ensures { AcceptedLinesReplay }
{}

/// The answer to a script's file, if there is one, and then the answers byte by byte, with those at the end of the
/// input, are the answers to the file and the input's lines.
pub fn bytes_are_lines()
    ensures { BytesAreLines }
{}

/// The answers do not depend on how the input is cut into pieces.
pub fn pieces_compose()
    ensures { PiecesCompose }
{}

/// The first line, or a script's file, is read as a script.
pub fn scripts_are_read()
    ensures { ScriptsAreRead }
{}

/// A rule base that has read a snapshot answers each later line as the one of which the snapshot was taken, but for the
/// numbers of units. No enabled rule may have a sequence or a closure, or be on `commit`.
pub fn snapshots_answer()
    // More generally, states that no later unit tells apart are told apart by no answer.
    ensures alike { AlikeAnswer }
    ensures snapshots { SnapshotsAnswer }
{}

/// Nothing in the runs of a checked rule base ever ends with `A3`, `A6` or `A7`: no transaction, no condition and no
/// action, whatever is declared of signals. The numbers in its lines must have 64 bits, as all that the program reads.
pub fn checked_lines_are_sound()
    ensures never { CheckedAreSound }
    // So it is of all lines of JSON.
    ensures json { JsonLinesFit }

    // What holds between two lines: values are used as what they are, chains are short enough, and all that was
    // signalled is as declared.
    ensures between { CheckedStaySound }
{}
