//! The writer: from the caller's tables into the caller's buffer.

ghost use Rattle.std.specs.Prelude.{◌≡◌, ◌+◌, ◌≤◌, length, take, IfOk, Ok, OnOk};
ghost use Rattle.fields.specs.Buffers.{put};
ghost use Rattle.files.specs.Contents.{end_of};
ghost use Rattle.files.specs.Reading.{read};
ghost use Rattle.files.specs.Tables.{counts_of, entry_bytes, contents_bytes, bytes_of};
ghost use Rattle.files.specs.Writing.{Fits, ReadAlike, judge_tables, write_answer, written};
ghost use Rattle.trace.specs.View.{given_of};

use crate::fault::{Cause, Fault, Layer};
use crate::tables::Tables;
use bodies::judge::judge_all;
use bodies::judges::{Events, Members, judge_hold};
use bodies::put::put_table;
use fields::put::put;
use files::contents::Contents;
use records::record::Record;

/// Writes the file of the tables, and answers its length. What is wrong with the tables is what a
/// reader would find in the file first; then the buffer must have room for it.
pub fn write_trace(tables: &Tables, out: &mut [u8]) -> Result<usize, Fault>
    ensures answer { result ≡ write_answer (length out.old) (given_of tables.now) }
    ensures after { out.new ≡ written result (given_of tables.now) out.old }
    ensures read_back { IfOk result (λ n. read (take n out.new) ≡ Ok (given_of tables.now)) }
    ensures same_faults { ReadAlike (given_of tables.now) }
{
    write_judged(tables, out)
}

fn write_judged(tables: &Tables, out: &mut [u8]) -> Result<usize, Fault>
    ensures answer { result ≡ write_answer (length out.old) (given_of tables.now) }
    ensures after { out.new ≡ written result (given_of tables.now) out.old }
    ensures within { OnOk result (Fits (given_of tables.now)) }
{
    let contents = tables.judge()?;
    let end = contents.end();
    if out.len() < end {
        return Err(Fault::new(Layer::Contents, Cause::Buffer, 0));
    }
    tables.put(contents, out);
    Ok(end)
}

impl Tables<'_> {
    /// The three layers, of tables.
    fn judge(&self) -> Result<Contents, Fault>
        ensures answer { result ≡ judge_tables (given_of self.now) }
        ensures counts { IfOk result (λ c. c ≡ counts_of (given_of self.now)) }
    {
        let contents = Contents::of(
            self.applications.len(),
            self.requests.len(),
            self.events.len(),
        )?;
        let events = Events {
            first: contents.events_at() as u32,
            requests: contents.requests,
        };
        judge_all(&events, self.events)?;
        judge_hold(self.settings)?;
        judge_all(&Members, self.applications)?;
        Ok(contents)
    }

    /// Puts the whole file.
    fn put(&self, contents: Contents, out: &mut [u8])
        requires counts { contents ≡ counts_of (given_of self.now) }
        requires room { end_of contents ≤ length out.old }
        ensures after { out.new ≡ put 0 (bytes_of (given_of self.now)) out.old }
        ensures within { Fits (given_of self.now) }
    {
        let end = put_contents(contents, out);
        let end = self.settings.put(out, end);
        let end = put_table(self.applications, out, end);
        let end = put_table(self.requests, out, end);
        put_table(self.events, out, end);
    }
}

/// Puts one entry of the contents.
fn put_entry(out: &mut [u8], at: usize, offset: u32, count: u32) -> usize
    requires { at + 8 ≤ length out.old }
    ensures end { result ≡ at + 8 }
    ensures after { out.new ≡ put at (entry_bytes offset count) out.old }
{
    let end = put(out, at, offset);
    put(out, end, count)
}

fn put_contents(contents: Contents, out: &mut [u8]) -> usize
    requires { 32 ≤ length out.old }
    ensures end { result ≡ 32 }
    ensures after { out.new ≡ put 0 (contents_bytes contents) out.old }
{
    let Contents {
        applications,
        requests,
        events,
    } = contents;
    let requests_at = contents.requests_at();
    let events_at = contents.events_at();
    let end = put_entry(out, 0, 32, 1);
    let end = put_entry(out, end, 40, applications as u32);
    let end = put_entry(out, end, requests_at as u32, requests as u32);
    put_entry(out, end, events_at as u32, events as u32)
}
