//! A file is read as one program, or it is refused for one reason, and never both.
ghost use Rattle.vt_file.specs.Laws.{HasOneSource, HasOneCause, NeverReadAndRefused};

/// A file has no two programs in scope, no two reasons to have none, and no program beside a reason.
pub fn one_reading()
    ensures source { HasOneSource }
    ensures cause { HasOneCause }
    ensures never_both { NeverReadAndRefused }
{}
