//! What the kept line is of a whole text.
ghost use Rattle.wording.specs.LastLine.{KeptIsTheLastLine};

/// Whatever text comes, in whatever pieces, what is kept of it is the front of its last line.
pub fn kept_is_the_last_line()
    ensures { KeptIsTheLastLine }
{}
