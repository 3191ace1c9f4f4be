//! Whole lines, each put into a buffer from a place on. Each function answers where it ended.

// A buffer and a place, and no struct of both: one that held the `&mut` would need a clause in each contract that it is still the same buffer.
// Bytes and no `write!`: a contract gives every byte and where the line ends, which a writer over the buffer would have to promise anew.

ghost use Rattle.std.specs.Prelude.{◌≡◌, ◌+◌, ◌≤◌, length};
ghost use Rattle.driver.specs.Runs.{time_of};
ghost use Rattle.listing.specs.Near.{Small};
ghost use Rattle.fields.specs.Buffers.{put};
ghost use Rattle.listing.specs.Lines.{application_of, event_line, fault_line, named, share_line, timed};

use crate::numbers::{put_decimal, put_numbers};
use driver::command::{Answer, Command, Outcome};
use fields::put::put_bytes;
use pools::request::Request;
use records::fault::Fault;

/// The line of an event: when it was, and what came of it.
pub fn put_event(out: &mut [u8], at: usize, command: Command, outcome: Outcome) -> usize
    requires { at + length (event_line command outcome) ≤ length out.old }
    ensures end { result ≡ at + length (event_line command outcome) }
    ensures after { out.new ≡ put at (event_line command outcome) out.old }
{
    let time = command.time();
    match outcome {
        Ok(Answer::Accepted(number)) => {
            let application = u64::from(application_of(command));
            put_timed(out, at, time, b" arrive", &[application, number])
        }
        Ok(Answer::Sent(request)) => {
            let application = u64::from(request.application);
            let size = u64::from(request.size);
            put_timed(
                out,
                at,
                time,
                b" send",
                &[application, request.number, request.first, size],
            )
        }
        Ok(Answer::Held { application, until }) => {
            put_timed(out, at, time, b" hold", &[u64::from(application), until])
        }
        Ok(Answer::Nothing) => put_timed(out, at, time, b" none", &[]),
        Ok(Answer::Done(number)) => put_timed(out, at, time, b" done", &[number]),
        Ok(Answer::Ticked) => put_timed(out, at, time, b" tick", &[]),
        Err(refused) => {
            let number = u64::from(u8::from(refused));
            put_timed(out, at, time, b" refuse", &[number])
        }
    }
}

/// The application that an arrival is of; of any other call 0, which stands in no line.
// No Option: a None would ask `put_event` for one more line, of an answer that such a call never has.
fn application_of(command: Command) -> u8
    ensures { result ≡ application_of command }
{
    match command {
        Command::Arrival { application, .. } => application,
        Command::Dispatch(_) | Command::Completion(_) | Command::Tick(_) => 0,
    }
}

/// Writes nothing: its contract is that no event's line has more than 64 bytes. It takes the numbers out,
/// since a proof knows how large a number can be once the code has it by itself.
pub fn event_line_is_short(command: Command, outcome: Outcome)
    requires { Small (time_of command) outcome }
    ensures { length (event_line command outcome) ≤ 64 }
{
    let _time = command.time();
    let _application = application_of(command);
    let Ok(answer) = outcome else {
        return;
    };
    match answer {
        Answer::Accepted(_number) => {}
        Answer::Sent(request) => {
            let Request {
                number: _number,
                application: _application,
                ..
            } = request;
        }
        Answer::Held {
            application: _application,
            until: _until,
        } => {}
        Answer::Nothing => {}
        Answer::Done(_number) => {}
        Answer::Ticked => {}
    }
}

/// A time, a word behind a space, and numbers.
fn put_timed(out: &mut [u8], at: usize, time: u64, word: &[u8], numbers: &[u64]) -> usize
    requires { at + length (timed time word.now numbers.now) ≤ length out.old }
    ensures end { result ≡ at + length (timed time word.now numbers.now) }
    ensures after { out.new ≡ put at (timed time word.now numbers.now) out.old }
{
    let end = put_decimal(out, at, time);
    let end = put_bytes(out, end, word);
    put_numbers(out, end, numbers)
}

/// The line of an application: its weight, and the sectors that were sent for it.
pub fn put_share(out: &mut [u8], at: usize, application: usize, weight: u8, sectors: u64) -> usize
    requires { at + length (share_line application weight sectors) ≤ length out.old }
    ensures end { result ≡ at + length (share_line application weight sectors) }
    ensures after { out.new ≡ put at (share_line application weight sectors) out.old }
{
    let end = put_named(out, at, b"app ", application as u64, b" ");
    let end = put_named(out, end, b"weight ", u64::from(weight), b" ");
    put_named(out, end, b"sent ", sectors, b"\n")
}

/// A word, a number, and what ends them.
fn put_named(out: &mut [u8], at: usize, word: &[u8], number: u64, last: &[u8]) -> usize
    requires { at + length (named word.now number last.now) ≤ length out.old }
    ensures end { result ≡ at + length (named word.now number last.now) }
    ensures after { out.new ≡ put at (named word.now number last.now) out.old }
{
    let end = put_bytes(out, at, word);
    let end = put_decimal(out, end, number);
    put_bytes(out, end, last)
}

/// The one line of a file that has a fault.
pub fn put_fault(out: &mut [u8], fault: Fault) -> usize
    requires { 64 ≤ length out.old }
    ensures end { result ≡ length (fault_line fault) }
    ensures most { result ≤ 64 }
    ensures after { out.new ≡ put 0 (fault_line fault) out.old }
{
    let Fault {
        layer,
        number,
        place,
    } = fault;
    let layer = u64::from(u8::from(layer));
    let cause = u64::from(u8::from(number));
    let end = put_bytes(out, 0, b"fault");
    put_numbers(out, end, &[layer, cause, place as u64])
}
