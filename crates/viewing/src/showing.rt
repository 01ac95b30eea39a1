//! The step from an instance to the picture of a text.
ghost use Rattle.std.specs.Prelude.{◌≡◌, ◌≢◌, ◌⊎◌, ℕ, take, string_bytes, IfOk, IfErr, OnOk, OnErr, IsErr};
ghost use Rattle.ports.specs.Outside.{BothTell, Cause};
ghost use Rattle.verification.specs.Texts as verify_texts;
ghost use Rattle.viewing.specs.Pictures.{AreMapped};
ghost use Rattle.viewing.specs.Saying.{IsRefusal};
ghost use Rattle.viewing.specs.Showing.{IsMade, PutsFront, Finishes, Says, Judges, ShowsOn, drawn_told};

use crate::arguments::Paths;
use crate::picturing::picture_of;
use crate::reading::{Unread, read_text};
use crate::saying::read_said;
use crate::statuses::ViewStatus;
use crate::texts::{drawn_text, refused_text};
use certcheck::Trouble;
use coordinates::Mapped;
use ports::{Desk, Failed, Outlet, write_all};
use std::alloc::Global;

/// A picture, and what is printed once it is written.
#[derive(Drop)]
struct Made {
    picture: String,
    printed: String,
}

/// Makes the picture of a text.
fn make(alloc: Global, mapped: &Mapped, bytes: &[u8]) -> Result<Made, Trouble>
    requires { AreMapped mapped.now }
    ensures made { IfOk result (λ m. IsMade mapped.now.instance bytes.now (string_bytes m.picture) (string_bytes m.printed)) }
    ensures refused { IfErr result (λ e. IsRefusal mapped.now.instance e bytes.now) }
{
    let said = read_said(alloc, &mapped.instance, bytes)?;
    let picture = picture_of(alloc, mapped, &said)?;
    let printed = drawn_text(alloc, said.length)?;
    Ok(Made { picture, printed })
}

/// Writes the picture to its file.
fn put_picture<D: Desk>(desk: &mut D, path: &str, picture: &[u8]) -> Result<(), Failed>
    ensures all { OnOk result (BothTell (λ t u. u ≡ drawn_told path.now picture.now t) (D.told desk.old) (D.told desk.new)) }
    ensures front { OnErr result (BothTell (PutsFront path.now picture.now) (D.told desk.old) (D.told desk.new)) }
    ensures cause { Cause (IsErr result) (D.write_faults desk.old) (D.write_faults desk.new) }
    ensures same { D.read_faults desk.new ≡ D.read_faults desk.old }
{
    if desk.bind_out(Outlet::Proof, path).is_err() {
        return Err(Failed);
    }
    write_all(desk, Outlet::Proof, picture)
}

/// Writes the picture, and prints that it is drawn.
fn finish<D: Desk>(desk: &mut D, made: &Made, out: &str) -> ViewStatus
    ensures desk { BothTell (Finishes result out.now (string_bytes made.now.picture) (string_bytes made.now.printed)) (D.told desk.old) (D.told desk.new) }
    ensures status { (result ≡ ViewStatus.Drawn) ⊎ (result ≡ ViewStatus.WriteFault) }
    ensures cause { Cause (result ≡ ViewStatus.WriteFault) (D.write_faults desk.old) (D.write_faults desk.new) }
    ensures same { D.read_faults desk.new ≡ D.read_faults desk.old }
{
    if put_picture(desk, out, made.picture.as_bytes()).is_err() {
        return ViewStatus::WriteFault;
    }
    match write_all(desk, Outlet::Text, made.printed.as_bytes()) {
        Ok(()) => ViewStatus::Drawn,
        Err(_) => ViewStatus::WriteFault,
    }
}

/// Prints the first refusal of a text.
fn say<D: Desk>(alloc: Global, desk: &mut D, refusal: u32, line: u64) -> ViewStatus
    ensures desk { BothTell (Says result (verify_texts.refused_text refusal line)) (D.told desk.old) (D.told desk.new) }
    ensures status { (result ≡ ViewStatus.Refused) ⊎ (result ≡ ViewStatus.WriteFault) ⊎ (result ≡ ViewStatus.NoMemory) }
    ensures cause { Cause (result ≡ ViewStatus.WriteFault) (D.write_faults desk.old) (D.write_faults desk.new) }
    ensures same { D.read_faults desk.new ≡ D.read_faults desk.old }
{
    match refused_text(alloc, refusal, line) {
        Ok(printed) => match write_all(desk, Outlet::Text, &printed) {
            Ok(()) => ViewStatus::Refused,
            Err(_) => ViewStatus::WriteFault,
        },
        Err(_) => ViewStatus::NoMemory,
    }
}

/// Draws what the bytes of a text say, or prints their first refusal.
fn judge<D: Desk>(
    alloc: Global,
    desk: &mut D,
    mapped: &Mapped,
    bytes: &[u8],
    out: &str,
) -> ViewStatus
    requires { AreMapped mapped.now }
    ensures desk { BothTell (Judges mapped.now.instance bytes.now out.now result) (D.told desk.old) (D.told desk.new) }
    ensures read { result ≢ ViewStatus.ReadFault }
    ensures usage { result ≢ ViewStatus.Usage }
    ensures cause { Cause (result ≡ ViewStatus.WriteFault) (D.write_faults desk.old) (D.write_faults desk.new) }
    ensures same { D.read_faults desk.new ≡ D.read_faults desk.old }
{
    match make(alloc, mapped, bytes) {
        Ok(made) => finish(desk, &made, out),
        Err(Trouble::Refused(refusal, line)) => say(alloc, desk, refusal, line),
        Err(Trouble::NoMemory) => ViewStatus::NoMemory,
    }
}

/// Reads a text, and draws what it says or prints its first refusal.
pub(crate) fn show<D: Desk>(
    alloc: Global,
    desk: &mut D,
    mapped: &Mapped,
    paths: Paths<'_>,
) -> ViewStatus
    requires { AreMapped mapped.now }
    ensures desk { BothTell (ShowsOn mapped.now.instance paths.entry.text.now paths.entry.out.now result) (D.told desk.old) (D.told desk.new) }
    ensures usage { result ≢ ViewStatus.Usage }
    ensures reads { Cause (result ≡ ViewStatus.ReadFault) (D.read_faults desk.old) (D.read_faults desk.new) }
    ensures writes { Cause (result ≡ ViewStatus.WriteFault) (D.write_faults desk.old) (D.write_faults desk.new) }
{
    match read_text(alloc, desk, paths.text) {
        Ok(bytes) => judge(alloc, desk, mapped, &bytes, paths.out),
        Err(Unread::Failed) => ViewStatus::ReadFault,
        Err(Unread::NoMemory) => ViewStatus::NoMemory,
    }
}
