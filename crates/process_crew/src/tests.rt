//! What no clause says: that children start, are fed, read, waited for and stopped, and run side by side.
ghost use Rattle.std.specs.Prelude.{◌≡◌, ◌≢◌, ℕ, true, false};

use crate::ProcessCrew;
use crew::{Event, Spawner};
use std::alloc::AllocError;
use std::fs;
use std::process::{Abort, Processes};
use std::test::Fail;

fn crew_of<'a, R: Processes + AllocGlobal>(
    rt: &'a R,
    path: &str,
) -> Result<ProcessCrew<'a, R>, AllocError> {
    Ok(ProcessCrew::new(rt, String::from_str(rt.alloc(), path)?))
}

// Starts the next ticket, which is open then; those that were out stay out, and open where they were.
fn started<S: Spawner>(rt: &impl Abort, crew: &mut S) -> u32
    ensures out { (S.state crew.new).is_out result ≡ true }
    ensures open { (S.state crew.new).is_sealed result ≡ false }
    ensures others { (t : ℕ) → (S.state crew.old).is_out t ≡ true → (S.state crew.new).is_out t ≡ true }
    ensures still { (t : ℕ) → (S.state crew.old).is_sealed t ≡ false → (S.state crew.new).is_sealed t ≡ false }
    ensures new { (t : ℕ) → (S.state crew.old).is_out t ≡ true → t ≢ result }
{
    let ticket = crew.issued();
    assert!(rt; ticket < u32::MAX);
    assert!(rt; crew.start(ticket).is_ok());
    ticket
}

// Feeds a job to a ticket and seals it; those that are out stay out, and the others open where they were.
fn give<S: Spawner>(rt: &impl Abort, crew: &mut S, ticket: u32, job: &[u8])
    requires out { (S.state crew.old).is_out ticket ≡ true }
    requires open { (S.state crew.old).is_sealed ticket ≡ false }
    ensures outs { (t : ℕ) → (S.state crew.new).is_out t ≡ (S.state crew.old).is_out t }
    ensures still { (t : ℕ) → t ≢ ticket → (S.state crew.new).is_sealed t ≡ (S.state crew.old).is_sealed t }
{
    assert!(rt; crew.feed(ticket, job).is_ok());
    assert!(rt; crew.seal(ticket).is_ok());
}

// Waits for the reply of a ticket; the others stay out.
fn replies<S: Spawner>(rt: &impl Abort, crew: &mut S, number: u32, wanted: &[u8])
    requires out { (S.state crew.old).is_out number ≡ true }
    ensures others { (t : ℕ) → t ≢ number → (S.state crew.new).is_out t ≡ (S.state crew.old).is_out t }
{
    match crew.wait() {
        Ok(Event::Reply { ticket, bytes }) => {
            assert_eq!(rt; ticket, number);
            assert!(rt; bytes.as_slice() == wanted);
        }
        _ => panic!(rt; "no reply"),
    }
}

// Waits for the death of a ticket.
fn dies<S: Spawner>(rt: &impl Abort, crew: &mut S, number: u32)
    requires out { (S.state crew.old).is_out number ≡ true }
{
    assert!(rt; matches!(crew.wait(), Ok(Event::Died { ticket }) if ticket == number));
}

#[test]
fn echo_replies_with_its_word(rt: HostRuntime) -> Result<(), Fail> {
    let mut crew = crew_of(&rt, "echo")?;
    let ticket = started(&rt, &mut crew);
    assert_eq!(rt; ticket, 0);
    assert!(rt; crew.seal(ticket).is_ok());
    replies(&rt, &mut crew, ticket, b"child\n");
    assert_eq!(rt; crew.issued(), 1);
    Ok(())
}

#[test]
fn false_dies(rt: HostRuntime) -> Result<(), Fail> {
    let mut crew = crew_of(&rt, "false")?;
    let ticket = started(&rt, &mut crew);
    assert!(rt; crew.seal(ticket).is_ok());
    dies(&rt, &mut crew, ticket);
    Ok(())
}

const MEETING: &str = "read a b
: > \"$a\"
i=0
while [ ! -e \"$b\" ]; do i=$((i+1)); [ $i -lt 1000000 ] || { rm -f \"$a\"; exit 1; }; done
rm -f \"$b\"
echo met
";

#[test]
fn two_children_meet(rt: HostRuntime) -> Result<(), Fail> {
    fs::write(&rt, "child", MEETING)?;
    let mut crew = crew_of(&rt, "sh")?;
    let first = started(&rt, &mut crew);
    let second = started(&rt, &mut crew);
    give(&rt, &mut crew, first, b"x y\n");
    give(&rt, &mut crew, second, b"y x\n");
    replies(&rt, &mut crew, first, b"met\n");
    replies(&rt, &mut crew, second, b"met\n");
    fs::remove_file(&rt, "child")?;
    Ok(())
}

#[test]
fn a_child_that_writes_on_is_stopped(rt: HostRuntime) -> Result<(), Fail> {
    let mut crew = crew_of(&rt, "yes")?;
    let first = started(&rt, &mut crew);
    crew.stop(first);
    let second = started(&rt, &mut crew);
    assert!(rt; crew.seal(second).is_ok());
    dies(&rt, &mut crew, second);
    Ok(())
}
