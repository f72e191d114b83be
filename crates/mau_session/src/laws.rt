//! What holds of the transcripts of every text: each function's contract is a law, and its body is empty.
ghost use Rattle.mau_session.specs.Laws.{TranscriptsAreOne};

/// No text has two transcripts.
pub fn transcripts_are_one()
    ensures { TranscriptsAreOne }
{}
