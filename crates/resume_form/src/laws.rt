//! The laws of reading.
ghost use Rattle.resume_form.specs.Resumed.{OneReading, OneTree, BodiesAreRead};

use verdict::{spellings_are_apart, yes_is_body_text};

/// No body can be read and be refused.
pub fn bodies_have_one_reading()
    ensures { OneReading }
{
    yes_is_body_text();
}

/// The text of each value that is a restart body is read, as one tree and one tour, where its nodes leave room for the budget.
pub fn bodies_are_read()
    ensures read { BodiesAreRead }
    ensures one { OneTree }
{
    yes_is_body_text();
    spellings_are_apart();
}
